ghost use Rattle.std.specs.Prelude.{◌≡◌, ◌+◌, ◌*◌, ◌-◌, ◌^◌, ◌≤◌, ◌<◌};

// The words of a level: a row for each energy cell, of a word for each temperature cell. The first row begins at `at`.
// The table that they lie in is no part of it: it changes with each word written, and with it what a contract says of its words.
#[derive(Clone, Copy)]
pub struct Rows {
    pub at: usize,
    pub count: usize,
    pub width: usize,
    pub ghost rows_some: { 1 ≤ count },
    pub ghost width_some: { 1 ≤ width },
    pub ghost fits: { at + count * width < 2 ^ 64 },
}

impl Rows {
    // Where the last row begins. The map stands there until that row is written itself.
    pub fn last_row(self) -> usize
        ensures { result ≡ self.at + (self.count - 1) * self.width }
    {
        (self.count - 1) * self.width + self.at
    }
}
