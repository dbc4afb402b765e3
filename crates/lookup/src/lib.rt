#![tactic(auto)]

ghost use Rattle.std.specs.Prelude.{◌≡◌, ◌<◌, length};
ghost use Rattle.lookup.specs.Lookup.{Steps, Looks, place_by, rest_in};

use run::Run;
use table::HeadAxes;

// The place of the cell to which a run is raised.
fn place_of(axes: HeadAxes, b: Run) -> usize
    requires { Steps axes b }
    ensures { result ≡ place_by axes b }
{
    let a = axes.energy_cell(b.energy as u32) as usize;
    let t = axes.temperature_cell(b.temperature as u32) as usize;
    let row = b.done as usize * axes.head.levels as usize + b.level as usize;
    (row * axes.energy_cells + a) * axes.temperature_cells + t
}

// What the table says of the time after a job that ends in `b`.
pub fn rest_of(axes: HeadAxes, table: &[u32], b: Run) -> u64
    requires { b.done < axes.head.jobs → Looks axes b (length table.now) }
    ensures { result ≡ rest_in axes table.now b }
{
    if b.done < axes.head.jobs {
        let k = place_of(axes, b);
        table[k] as u64
    } else {
        0
    }
}
