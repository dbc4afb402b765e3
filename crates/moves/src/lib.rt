#![tactic(auto)]

ghost use Rattle.std.specs.Prelude.{◌≡◌, ℕ, ◌+◌, ◌-◌, ◌/◌, ◌<◌};
ghost use Rattle.table.specs.Problem.{sheet_for};
ghost use Rattle.open_ways.specs.Moves.{move_to};
ghost use Rattle.moves.specs.Moves.{move_of, Counts, Moves};

use open_ways::{Move, NO_MOVE};
use run::Run;
use store::LEVELS_MAX;
use table::{Frame, Problem};

// How many energy cells, from the first, have the energy for a job: (W - energy) / g + 1, without a division. Raising adds `over` to W
// for the last cell and `short` to the job's energy for `up` cells: the cell that is `up` before the last has the energy where `over`
// is at most `short`, and each cell before it has.
fn lawful_rows(f: Frame, energy: u32, up: u32) -> u32
    requires { Counts f energy up }
    ensures { result ≡ (f.head.energy_budget - energy) / f.head.energy_step + 1 }
{
    let last = (f.energy_cells - 1) as u32;
    let over = last * f.head.energy_step - f.head.energy_budget;
    let short = up * f.head.energy_step - energy;
    if over <= short {
        last - up + 1
    } else {
        last - up
    }
}

// The move of job i from level p to level j. Its energy is that of the same job from energy 0.
// Job and levels are plain numbers, bounded in the contract: each call has others, and a type for them would have to hold their sheet.
fn move_of(problem: &Problem, i: u32, p: u32, j: u32) -> Move
    requires { let s = sheet_for problem.now in record { job : i < s.jobs; left : p < s.levels; entered : j < s.levels } }
    ensures { result ≡ move_of (sheet_for problem.now) i p j }
{
    let f = problem.frame;
    let b = problem.figures.next_job(Run::fresh(i, p, 0, 0), j);
    let time = b.time as u32;
    // No cell has the energy: a move that is lawful for no word, and no Option, which each of the table's loops would unwrap.
    if (f.head.energy_budget as u64) < b.energy {
        return Move { time, ..NO_MOVE };
    }
    let energy = b.energy as u32;
    let width = f.temperature_cells as u32;
    let up = f.energy_cell(energy);
    let rows = lawful_rows(f, energy, up);
    let shift = up * width;
    let reach = rows * width;
    Move { shift, reach, time }
}

// Finds the moves of job i from level p, plain numbers as in `move_of`.
fn find_moves_from(problem: &Problem, i: u32, p: u32, row: &mut [Move; LEVELS_MAX])
    requires { let s = sheet_for problem.now in record { job : i < s.jobs; left : p < s.levels } }
    ensures { (j : ℕ) → j < (sheet_for problem.now).levels → move_to row.new j ≡ move_of (sheet_for problem.now) i p j }
{
    let l = problem.frame.head.levels as usize;
    for (j, m) in row[..l].iter_mut().enumerate() {
        *m = move_of(problem, i, p, j as u32);
    }
}

// Finds the l × l moves of job i, by level left and then level entered.
pub fn find_moves(problem: &Problem, i: u32, moves: &mut [[Move; LEVELS_MAX]; LEVELS_MAX])
    requires { i < (sheet_for problem.now).jobs }
    ensures { Moves (sheet_for problem.now) i moves.new }
{
    let l = problem.frame.head.levels as usize;
    for (p, row) in moves[..l].iter_mut().enumerate() {
        find_moves_from(problem, i, p as u32, row);
    }
}
