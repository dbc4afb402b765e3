#![tactic(auto)]

ghost use Rattle.std.specs.Prelude.{◌≡◌};
ghost use Rattle.reply.specs.Reply.{totals_of};

use run::Run;

// What the planner says of a plan: "total time, energy and final temperature of the run without grains, and a peak figure".
#[derive(Clone, Copy)]
pub struct Totals {
    pub time: u64,
    pub energy: u64,
    pub temperature: u64,
    pub peak: u64,
}

// The figures of the run of a plan's levels.
impl From<Run> for Totals {
    ghost from_gives = { λ run totals. totals ≡ totals_of run };

    fn from(run: Run) -> Totals {
        Totals {
            time: run.time,
            energy: run.energy,
            temperature: run.temperature,
            peak: run.peak,
        }
    }
}
