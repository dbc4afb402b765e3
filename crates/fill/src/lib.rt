#![tactic(auto)]

ghost use Rattle.std.specs.Prelude.{◌≡◌, suc, ◌≤◌, ◌<◌, length};
ghost use Rattle.frame.specs.Table.{need, filled};
ghost use Rattle.table.specs.Table.{base};
ghost use Rattle.table.specs.Problem.{sheet_for};
ghost use Rattle.fill.specs.Layer.{FilledFrom};

use open_ways::{Layer, Move, NO_MOVE};
use relax::PART_SIZE;
use store::LEVELS_MAX;
use table::Problem;

// Works out the words of job i: what follows each level, and then the least over the moves to it. `moves` and `part` are lent, since they
// are made once for all jobs; what they then hold is open.
// The job is a plain number, as in `moves`.
fn fill_job(
    problem: &Problem,
    table: &mut [u32],
    moves: &mut [[Move; LEVELS_MAX]; LEVELS_MAX],
    part: &mut [[u32; PART_SIZE]; LEVELS_MAX],
    i: u32,
)
    requires { let s = sheet_for problem.now in record {
      room : need s ≤ length table.old;
      job : i < s.jobs;
      next : FilledFrom s (base s (suc i) 0) table.old table.old;
    } }
    ensures { let s = sheet_for problem.now in FilledFrom s (base s i 0) table.old table.new }
{
    let levels = problem.frame.head.levels as usize;
    let cells = problem.frame.energy_cells * problem.frame.temperature_cells;
    let at = i as usize * levels * cells;
    follow::expand_job(problem, table, i);
    moves::find_moves(problem, i, moves);
    let layer = Layer {
        at,
        levels,
        cells,
        moves,
    };
    relax::relax_words(table, part, &layer);
}

// Fills the table, from the last job to the first, so that a job finds the words of the next.
pub fn fill(problem: &Problem, table: &mut [u32])
    requires { need (sheet_for problem.now) ≤ length table.old }
    ensures { table.new ≡ filled (sheet_for problem.now) table.old }
{
    let mut moves = [[NO_MOVE; LEVELS_MAX]; LEVELS_MAX];
    let mut part = [[0u32; PART_SIZE]; LEVELS_MAX];
    for i in (0..problem.frame.head.jobs).rev() {
        fill_job(problem, table, &mut moves, &mut part, i);
    }
}
