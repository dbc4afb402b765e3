#![tactic(auto)]

ghost use Rattle.std.specs.Prelude.{◌≡◌, ◌++◌, ℕ, ◌-◌, ◌≤◌, length, drop};
ghost use Rattle.thermal.specs.Rounding.{raise};
ghost use Rattle.frame.specs.Sheet.{Sheet};
ghost use Rattle.frame.specs.Run.{fresh};
ghost use Rattle.frame.specs.Plan.{plan};
ghost use Rattle.frame.specs.Table.{need};
ghost use Rattle.run.specs.Run.{state_of};
ghost use Rattle.table.specs.Table.{Raises, Holds};
ghost use Rattle.table.specs.Problem.{sheet_for};
ghost use Rattle.walk.specs.Walk.{Starts};

use run::Run;
use table::{Frame, Problem};

// The cell to which a run is raised.
fn raise_run(f: Frame, b: Run) -> Run
    requires { Raises b }
    ensures { state_of result ≡ fresh b.done b.level (raise f.head.energy_step b.energy) (raise f.head.temperature_step b.temperature) }
{
    let energy = f.energy_cell(b.energy as u32) * f.head.energy_step;
    let temperature = f.temperature_cell(b.temperature as u32) * f.head.temperature_step;
    Run::fresh(b.done, b.level, energy as u64, temperature as u64)
}

// Follows a filled table from `start`, and writes the level of each job that is left.
pub fn walk(problem: &Problem, table: &[u32], start: Run, part: &mut [u8])
    requires { let s = sheet_for problem.now in record {
      room : need s ≤ length table.now;
      words : (i : ℕ) → Holds s table.now i;
      starts : Starts s (state_of start);
      long : s.jobs - start.done ≤ length part.old;
    } }
    ensures { let s = sheet_for problem.now in part.new ≡ plan s (s.jobs - start.done) (state_of start) ++ drop (s.jobs - start.done) part.old }
{
    let f = problem.frame;
    let n = (f.head.jobs - start.done) as usize;
    let mut a = raise_run(f, start);
    for level in part[..n].iter_mut() {
        let j = choice::choose(problem, table, a);
        *level = j as u8;
        a = raise_run(f, problem.figures.next_job(a, j));
    }
}
