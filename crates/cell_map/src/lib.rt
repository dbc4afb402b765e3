#![tactic(auto)]

ghost use Rattle.std.specs.Prelude.{length};
ghost use Rattle.cell_map.specs.Rows.{Rising, Leading};

mod rows;

pub use rows::Rows;

// How many cells, from the first, the map leads to a cell of a row: the map has a cell for each cell of a row, and rises.
pub fn count_leading(map: &[u32]) -> usize
    requires { Rising map.now 0 (length map.now) }
    ensures { Leading map.now 0 (length map.now) result }
{
    map.partition_point(|q| (*q as usize) < map.len())
}
