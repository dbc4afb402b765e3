#![tactic(auto)]

ghost use Rattle.std.specs.Prelude.{◌≡◌, ◌≤◌, ◌<◌, length};
ghost use Rattle.frame.specs.Sheet.{Sheet};
ghost use Rattle.frame.specs.Plan.{via};
ghost use Rattle.frame.specs.Table.{need};
ghost use Rattle.run.specs.Run.{state_of};
ghost use Rattle.table.specs.Table.{AtCell};
ghost use Rattle.table.specs.Problem.{sheet_for};
ghost use Rattle.lookup.specs.Lookup.{rest_by};
ghost use Rattle.choice.specs.Choice.{level_by};

use lookup::rest_of;
use run::Run;
use table::Problem;
use word::NO_WAY;

// "4,294,967,295 where no way exists": the table's words hold this number as they hold times, so it is no `Option` here. It is the
// greatest of what is compared, so that the least is found without a test for none.
const INFEASIBLE: u64 = NO_WAY as u64;

// The time from a cell on where its next job takes level j, "4,294,967,295 where no way exists".
// The level is a plain number, bounded in the contract: each call has another, and a type for it would have to hold its sheet.
fn way(problem: &Problem, table: &[u32], a: Run, j: u32) -> u64
    requires { let s = sheet_for problem.now in record { room : need s ≤ length table.now; at : AtCell s (state_of a); level : j < s.levels } }
    ensures { let s = sheet_for problem.now in result ≡ via s (rest_by s table.now) (state_of a) j }
{
    let f = problem.frame;
    let b = problem.figures.next_job(a, j);
    if (f.head.energy_budget as u64) < b.energy {
        return INFEASIBLE;
    }
    if (f.head.temperature_limit as u64) < b.peak {
        return INFEASIBLE;
    }
    let t = b.time + rest_of(f.axes(), table, b);
    t.min(INFEASIBLE)
}

// The lowest level of a cell's next job that takes the least time from there.
pub fn choose(problem: &Problem, table: &[u32], a: Run) -> u32
    requires { let s = sheet_for problem.now in record { room : need s ≤ length table.now; at : AtCell s (state_of a) } }
    ensures { let s = sheet_for problem.now in result ≡ level_by s table.now (state_of a) }
{
    (0..problem.frame.head.levels)
        .min_by_key(|j| way(problem, table, a, *j))
        .unwrap_or(0)
}
