#![tactic(auto)]

ghost use Rattle.std.specs.Prelude.{◌≡◌, cond, ◌+◌, ◌≤◌, ◌<◌, leb, length};
ghost use Rattle.thermal.specs.Rounding.{ceil_div};
ghost use Rattle.frame.specs.Sheet.{Sheet};
ghost use Rattle.frame.specs.Table.{tabulate, temperature_cells};
ghost use Rattle.table.specs.Problem.{sheet_for};
ghost use Rattle.next_cells.specs.Next.{multiplier_of, next_cell};

use run::Run;
use table::{Frame, Problem};

// The scale of a multiplier that stands for a division: 2 ^ 32.
const SCALE: u64 = 1 << 32;

// The temperature cell of a temperature at a job's end, B where it is above the limit. The quotient by h is worked out by the
// multiplier 2 ^ 32 / h, rounded up: it is exact for numbers as small as these. B stands for no cell, and is no `Option`, as the map's
// cells lie in the table's words.
fn cell_of(f: Frame, t: u64, multiplier: u64) -> u32
    requires { multiplier ≡ multiplier_of f.head.temperature_step }
    ensures { result ≡ cond (leb t f.head.temperature_limit) (ceil_div t f.head.temperature_step) f.temperature_cells }
{
    if t <= f.head.temperature_limit as u64 {
        let step = f.head.temperature_step as u64;
        return ((t + (step - 1)) * multiplier / SCALE) as u32;
    }
    f.temperature_cells as u32
}

// Writes, for each temperature cell, the temperature cell after job i at level j.
// Job and level are plain numbers, bounded in the contract: each call has others, and a type for them would have to hold their sheet.
pub fn map_cells(problem: &Problem, row: &mut [u32], i: u32, j: u32)
    requires { let s = sheet_for problem.now in record { job : i < s.jobs; level : j < s.levels; whole : length row.old ≡ temperature_cells s } }
    ensures { let s = sheet_for problem.now in row.new ≡ tabulate (next_cell s i j) 0 (temperature_cells s) }
{
    let f = problem.frame;
    let step = f.head.temperature_step as u64;
    let multiplier = (u32::MAX / f.head.temperature_step) as u64 + 1;
    for (b, cell) in row.iter_mut().enumerate() {
        let run = Run::fresh(i, j, 0, b as u64 * step);
        let after = problem.figures.next_job(run, j);
        *cell = cell_of(f, after.temperature, multiplier);
    }
}
