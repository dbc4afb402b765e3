ghost use Rattle.std.specs.Prelude.{◌+◌, ◌<◌, ◌^◌, length};

// Where a text is read on: the number of its next line, from 1, and what is left of it. A line has one byte at least, so that a text
// has fewer lines than its 64 bits count.
#[derive(Clone, Copy)]
pub struct Place<'a> {
    pub line: usize,
    pub rest: &'a [u8],
    pub ghost counted: { line + length rest.now < 2 ^ 64 },
}
