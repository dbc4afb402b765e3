#![tactic(auto)]

ghost use Rattle.std.specs.Prelude.{◌≡◌, ◌≤◌, length, take};
ghost use Rattle.std.specs.Char.{is_ascii_graphic};
ghost use Rattle.std.specs.List.{prefix_len};
ghost use Rattle.std.specs.Option.{option_map};
ghost use Rattle.name_lines.specs.Name.{name_max, name_fault};
ghost use Rattle.fast_fields.specs.Take.{line_taken};
ghost use Rattle.fast_name_lines.specs.Name.{name_line_max};

use name_lines::NAME_MAX;
use text::LINE_END;

// The longest line J: the letter, a byte 9, the name and the byte 10.
const NAME_LINE_MAX: usize = 2 + NAME_MAX + 1;

// How many bytes of a name the text starts with.
fn count_letters(t: &[u8]) -> usize
    requires { name_max ≤ length t.now }
    ensures { result ≡ prefix_len is_ascii_graphic (take name_max t.now) }
{
    t[..NAME_MAX]
        .iter()
        .take_while(|b| b.is_ascii_graphic())
        .count()
}

// Takes a line J: how many bytes it has, with its byte 10.
pub fn take_name(t: &[u8]) -> Option<usize>
    ensures { result ≡ option_map (λ line. line.1) (line_taken name_line_max name_fault t.now) }
{
    if !fast_fields::starts_with(t, b'J', NAME_LINE_MAX) {
        return None;
    }
    let letters = count_letters(&t[2..]);
    if letters == 0 || t[2 + letters] != LINE_END {
        return None;
    }
    Some(2 + letters + 1)
}
