#![tactic(auto)]

ghost use Rattle.std.specs.Prelude.{◌-◌, length};
ghost use Rattle.std.specs.Result.{result_err};
ghost use Rattle.store.specs.Figures.{sheet_of};
ghost use Rattle.run.specs.Run.{state_of};
ghost use Rattle.table.specs.Problem.{sheet_for};
ghost use Rattle.table.specs.Table.{Axes};
ghost use Rattle.reply.specs.Answer.{found_from, Answers};
ghost use Rattle.reply.specs.Reply.{reply_by};
ghost use Rattle.solve.specs.Solve.{Ready, Finds};

use refusal::Refusal;
use reply::Totals;
use run::Run;
use step::Figures;
use store::Store;
use table::{Frame, Problem};

// Fills the table and writes the levels of a plan for the jobs left from `start` on, unless there is none.
fn find_plan(
    problem: &Problem,
    start: Run,
    table: &mut [u32],
    part: &mut [u8],
) -> Result<(), Refusal>
    requires { Ready (sheet_for problem.now) (state_of start) (length table.old) (length part.old) }
    ensures { let s = sheet_for problem.now in Finds s (s.jobs - start.done) (state_of start) table.old table.new part.old part.new (result_err result) }
{
    let f = problem.frame;
    fill::fill(problem, table);
    if (f.head.energy_budget as u64) < start.energy {
        return Err(Refusal::NoPlan);
    }
    let least = lookup::rest_of(f.axes(), table, start);
    if (f.head.deadline as u64) < start.time + least {
        return Err(Refusal::NoPlan);
    }
    walk::walk(problem, table, start, part);
    Ok(())
}

// Plans the jobs left from `start` on, where what is lent is enough: levels to `part`, least times to `table`. Those are two from call to
// call, as C lends them: of what held them by `&mut` each contract would have to say besides that it still holds the same ones.
pub fn solve(
    frame: Frame,
    store: &Store,
    start: Run,
    table: &mut [u32],
    part: &mut [u8],
) -> Result<Totals, Refusal>
    requires { let s = sheet_of frame.head store.now in record { axes : Axes s frame; ready : Ready s (state_of start) (length table.old) (length part.old) } }
    ensures { let s = sheet_of frame.head store.now in Answers (found_from s (state_of start)) table.old table.new part.old part.new (reply_by result) }
{
    let steady = step::steady_states(store, frame.head.resistance);
    let figures = Figures { store, steady };
    let problem = Problem { frame, figures };
    find_plan(&problem, start, table, part)?;
    let left = frame.head.jobs - start.done;
    let levels = &part[..left as usize];
    Ok(problem.figures.run_levels(start, levels).into())
}
