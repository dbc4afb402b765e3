#![tactic(auto)]

ghost use Rattle.std.specs.Prelude.{◌≡◌, suc, ◌≤◌, ◌<◌, length};
ghost use Rattle.frame.specs.Sheet.{Sheet};
ghost use Rattle.frame.specs.Table.{need};
ghost use Rattle.table.specs.Table.{Holds};
ghost use Rattle.table.specs.Problem.{sheet_for};
ghost use Rattle.follow.specs.Follow.{Follows, Expanded};

use cell_map::Rows;
use next_cells::map_cells;
use table::Problem;

// Writes what follows job i at level j in the place of that level's words. The map of temperature cells stands in the last row
// until that row is written itself.
// Job and level are plain numbers, bounded in the contract: each call has others, and a type for them would have to hold their sheet.
fn expand_level(problem: &Problem, table: &mut [u32], i: u32, j: u32)
    requires { let s = sheet_for problem.now in record {
      room : need s ≤ length table.old;
      job : i < s.jobs;
      level : j < s.levels;
      next : Holds s table.old (suc i);
    } }
    ensures { let s = sheet_for problem.now in Follows s i j table.old table.new }
{
    let count = problem.frame.energy_cells;
    let width = problem.frame.temperature_cells;
    let levels = problem.frame.head.levels as usize;
    let at = (i as usize * levels + j as usize) * count * width;
    let rows = Rows { at, count, width };
    let last = rows.last_row();
    map_cells(problem, &mut table[last..last + width], i, j);
    let next = (i + 1 < problem.frame.head.jobs).then_some(at + levels * count * width);
    expand::expand_rows(table, rows, next);
}

// The same for all levels.
pub fn expand_job(problem: &Problem, table: &mut [u32], i: u32)
    requires { let s = sheet_for problem.now in record { room : need s ≤ length table.old; job : i < s.jobs; next : Holds s table.old (suc i) } }
    ensures { let s = sheet_for problem.now in Expanded s i table.old table.new }
{
    for j in 0..problem.frame.head.levels {
        expand_level(problem, table, i, j);
    }
}
