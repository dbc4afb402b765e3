#![tactic(auto)]

ghost use Rattle.std.specs.Prelude.{◌≡◌, ◌≤◌, ◌<◌, length};
ghost use Rattle.fast_fields.specs.Take.{taken, starts};

use fields::Range;
use text::TAB;

// The functions `take_..` go over a line once, and take it only where it is sound and not near the end of the text: what they do
// not take is read field by field, by what knows why a line is refused.

// A number of more digits is not taken. Every range but those of the H line ends below 10 ^ 8.
pub const DIGITS_TAKEN: usize = 8;

// Whether the text has `room` bytes, and starts with the letter and a byte 9.
pub fn starts_with(t: &[u8], letter: u8, room: usize) -> bool
    requires { 2 ≤ room }
    ensures { result ≡ starts letter room t.now }
{
    room <= t.len() && t.starts_with(&[letter, TAB])
}

// Takes the number in the range that the text starts with, if it has at most 8 digits and ends at a byte `stop`: its value, and how
// many digits it has.
pub fn take_number(t: &[u8], stop: u8, range: Range) -> Option<(u32, usize)>
    requires { (9 ≤ length t.now) × (stop < 48) }
    ensures { result ≡ taken stop range t.now }
{
    let (value, digits) = numbers::leading_number(&t[..DIGITS_TAKEN])?;
    if t[digits] != stop || !range.contains(value) {
        return None;
    }
    Some((value as u32, digits))
}
