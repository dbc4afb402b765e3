#![tactic(auto)]

ghost use Rattle.std.specs.Prelude.{◌≡◌};
ghost use Rattle.std.specs.Char.{is_ascii_graphic};
ghost use Rattle.std.specs.List.{list_all};
ghost use Rattle.name_lines.specs.Name.{is_name, name_fault};

use fields::Fault;
use text::Line;

pub const NAME_MAX: usize = 16; // document 01: "name (1 to 16 bytes, each 33 to 126)"

// Whether each byte is 33 to 126.
fn are_letters(t: &[u8]) -> bool
    ensures { result ≡ list_all is_ascii_graphic t.now }
{
    t.iter().all(|b| b.is_ascii_graphic())
}

// Whether bytes are a job's name.
fn is_name(t: &[u8]) -> bool
    ensures { result ≡ is_name t.now }
{
    if t.is_empty() || NAME_MAX < t.len() {
        return false;
    }
    are_letters(t)
}

// What is wrong with a line J and its name.
pub fn check_name(line: Line) -> Result<(), Fault>
    ensures { result ≡ name_fault line.entry.bytes.now }
{
    if !fields::opens_with(line, b'J', 1) {
        return Err(Fault::Shape);
    }
    if !is_name(text::behind(line.bytes, 1)) {
        return Err(Fault::Form(2));
    }
    Ok(())
}
