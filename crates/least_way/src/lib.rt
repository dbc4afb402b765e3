#![tactic(auto)]

ghost use Rattle.one_way.specs.Way.{Opened};
ghost use Rattle.least_way.specs.Least.{least_in, TimeOf};
ghost use Rattle.std.specs.Prelude.{◌+◌, ◌≤◌, ◌<◌};

use one_way::{Way, time_by};
use word::lesser;

// The least time of word q by the ways in N places: there may be fewer ways, and the first stands in the places beyond them.
// N is a constant, so that no loop over the ways is left for each word.
pub fn least<const N: usize>(table: &[u32], ways: &[Way], q: usize) -> u32
    requires { record { ways : Opened table.now (q + 1) ways.now; some : 1 ≤ N } }
    ensures { TimeOf (least_in table.now ways.now N q) result }
{
    let mut best = time_by(table, ways, 0, q);
    for k in 1..N {
        best = lesser(best, time_by(table, ways, k, q));
    }
    best
}
