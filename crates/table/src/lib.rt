#![tactic(auto)]

mod axes;
mod problem;

pub use axes::{Frame, HeadAxes};
pub use problem::Problem;

// "need above 4,194,304 words" is refused.
pub const WORDS_MAX: usize = 4_194_304;
