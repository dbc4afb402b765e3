ghost use Rattle.frame.specs.Sheet.{Ranges};
ghost use Rattle.store.specs.Figures.{sheet_of};

use crate::{Head, Store};

// A sheet that was read without a refusal: its head, and the store of its other figures, each of them in its range.
#[derive(Clone, Copy)]
pub struct ReadSheet<'a> {
    pub head: Head,
    pub store: &'a Store,
    pub ghost ranges: { Ranges (sheet_of head store.now) },
}
