#![tactic(auto)]

ghost use Rattle.std.specs.Prelude.{◌≡◌, ◌+◌, ◌<◌, ◌^◌, true};
ghost use Rattle.fields.specs.Fields.{in_range, opens, numbers_from, numbers_in, fields_of};

use text::{Line, TAB};

// What is wrong with a line: its letter or its count of fields, a field's form, or a field's range.
#[derive(Clone, Copy)]
pub enum Fault {
    Shape,
    Form(usize),
    Range(usize),
}

// The range of a number, both ends included (document 01: "from .. to .."). No `RangeInclusive`: a constant takes no call, so that
// `0..=9` is refused there, and it has a state of its own, used up, in which its last number is out.
#[derive(Clone, Copy)]
pub struct Range {
    pub least: u32,
    pub most: u32,
}

impl Range {
    pub fn contains(self, n: u64) -> bool
        ensures whole { result ≡ in_range self n }
        ensures small { result ≡ true → n < 2 ^ 32 }
    {
        self.least as u64 <= n && n <= self.most as u64
    }
}

// The next N numbers of a line, and the rest of it after them.
#[derive(Drop)]
pub struct Numbers<'a, const N: usize> {
    pub values: [u32; N],
    pub rest: &'a [u8],
}

// Whether a line's first field is the letter and k fields come after it. Not copied into each reader: the archive's code has a bound.
#[inline(never)]
pub fn opens_with(line: Line, letter: u8, k: usize) -> bool
    ensures { result ≡ opens letter k line.entry.bytes.now }
{
    let letters = text::find(line.bytes, TAB);
    letters == 1 && line.bytes[0] == letter && line.tabs == k
}

// Reads the numbers from number `first` on of the rest of a line, each of them in its range. Rest and number go on together in an H line
// alone, which is read in two parts; what holds both would be left at a field at fault.
pub fn read_numbers<const N: usize>(
    t: &[u8],
    first: usize,
    ranges: [Range; N],
) -> Result<Numbers<'_, N>, Fault>
    requires { first + N + 2 < 2 ^ 64 }
    ensures { numbers_in result ≡ numbers_from ranges.entry first t.now }
{
    let mut values = [0; N];
    let mut rest = t;
    for (j, range) in ranges.iter().enumerate() {
        let Some(number) = numbers::read_number(rest) else {
            return Err(Fault::Form(first + j + 2));
        };
        if !range.contains(number.value) {
            return Err(Fault::Range(first + j + 2));
        }
        values[j] = number.value as u32;
        rest = number.rest;
    }
    Ok(Numbers { values, rest })
}

// Reads a line of a letter and N numbers.
pub fn read_fields<const N: usize>(
    line: Line,
    letter: u8,
    ranges: [Range; N],
) -> Result<[u32; N], Fault>
    requires { N + 2 < 2 ^ 64 }
    ensures { result ≡ fields_of letter ranges.entry line.entry.bytes.now }
{
    if !opens_with(line, letter, N) {
        return Err(Fault::Shape);
    }
    // No `?`: the borrow checker does not cover it where a value with a slice is taken apart for any N.
    match read_numbers(text::behind(line.bytes, 1), 0, ranges) {
        Ok(numbers) => Ok(numbers.values),
        Err(fault) => Err(fault),
    }
}
