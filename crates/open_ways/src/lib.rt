#![tactic(auto)]

mod layer;

pub use layer::{Layer, Span};

// A job's move from one level to another: how many words it leads on, for how many words, from the first, it is lawful, and its time.
#[derive(Clone, Copy)]
pub struct Move {
    pub shift: u32,
    pub reach: u32,
    pub time: u32,
}

// A move that is lawful for no word: a reach of 0 and no Option, which each loop over moves would open.
pub const NO_MOVE: Move = Move {
    shift: 0,
    reach: 0,
    time: 0,
};
