#![tactic(auto)]

// Planning afresh after a job: the call that a logger makes with what it reads.
ghost use Rattle.std.specs.Prelude.{◌≡◌, length};
ghost use Rattle.run.specs.Run.{state_of};
ghost use Rattle.reply.specs.Answer.{Answers};
ghost use Rattle.reply.specs.Reply.{reply_by};
ghost use Rattle.demands.specs.Order.{afresh_of};
ghost use Rattle.demands.specs.Afresh.{AfreshDemands};
ghost use Rattle.afresh.specs.Read.{read_of};

use refusal::Refusal;
use reply::Totals;
use run::Run;
use store::{ReadSheet, Store};

// What is read after a job: "jobs done, present level, elapsed time, energy spent and temperature".
#[derive(Clone, Copy)]
pub struct Reading {
    pub done: u32,
    pub level: u32,
    pub time: u32,
    pub energy: u32,
    pub temperature: u32,
}

// The run that goes on from a reading. The temperature read is no job end: the peak is 0.
impl From<Reading> for Run {
    ghost from_gives = { λ reading run. state_of run ≡ read_of reading };

    fn from(reading: Reading) -> Run {
        Run {
            done: reading.done,
            level: reading.level,
            time: reading.time as u64,
            energy: reading.energy as u64,
            temperature: reading.temperature as u64,
            peak: 0,
        }
    }
}

// Plans the jobs of a sheet that are still to do, from a reading: levels to `part`, least times to `table`.
pub fn plan_afresh(
    s: &[u8],
    reading: Reading,
    table: &mut [u32],
    part: &mut [u8],
) -> Result<Totals, Refusal>
    ensures answers { Answers (afresh_of s.now (read_of reading) (length table.old) (length part.old)) table.old table.new part.old part.new (reply_by result) }
    ensures afresh_demands { AfreshDemands s.now (read_of reading) (length table.old) (length part.old) part.new (reply_by result) }
{
    let mut store = Store::clear();
    // A `match`, as in `plan` of `planner`, which says why.
    let read = match sheet::read(s, &mut store) {
        Ok(head) => Ok(ReadSheet {
            head,
            store: &store,
        }),
        Err(refusal) => Err(refusal),
    };
    planner::plan_left(read, reading.into(), table, part)
}
