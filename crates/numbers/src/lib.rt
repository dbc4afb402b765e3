#![tactic(auto)]

ghost use Rattle.std.specs.Prelude.{◌≡◌, ◌≤◌, length};
ghost use Rattle.std.specs.Option.{option_map};
ghost use Rattle.numbers.specs.Number.{leading_number, next_number};

use text::TAB;

const DIGITS_MAX: usize = 10; // document 01: "A number has 1 to 10 digits"

// The number in a field, and the rest of the line after the field.
#[derive(Drop)]
pub struct Number<'a> {
    pub value: u64,
    pub rest: &'a [u8],
}

// The number that the text starts with, and how many digits it has; none where its digits are no number.
pub fn leading_number(t: &[u8]) -> Option<(u64, usize)>
    requires { length t.now ≤ 10 }
    ensures { result ≡ leading_number t.now }
{
    let mut value = 0;
    let mut digits = 0; // no `enumerate`: the count is needed behind the loop, where its place is gone
    for &b in t {
        if !b.is_ascii_digit() {
            break;
        }
        value = value * 10 + (b - b'0') as u64;
        digits += 1;
    }
    if digits == 0 {
        return None;
    }
    if 1 < digits && t[0] == b'0' {
        return None;
    }
    Some((value, digits))
}

// The number in the next field of the rest of a line; none where the field is of another form. Not copied into each reader: the archive's
// code has a bound.
#[inline(never)]
pub fn read_number(t: &[u8]) -> Option<Number<'_>>
    ensures { option_map (λ n. (n.value, n.rest.now)) result ≡ next_number t.now }
{
    let (value, digits) = leading_number(&t[..t.len().min(DIGITS_MAX)])?;
    // An 11th digit is such a byte too.
    if digits < t.len() && t[digits] != TAB {
        return None;
    }
    Some(Number {
        value,
        rest: text::behind(t, digits),
    })
}
