#![tactic(auto)]

ghost use Rattle.std.specs.Prelude.{◌+◌, ◌*◌, ◌-◌};
ghost use Rattle.spans.specs.Spans.{Spans};
ghost use Rattle.cell_map.specs.Rows.{gathered, Behind};

use cell_map::Rows;
use one_column::lay_column;

// Writes all columns. A cell of the map is read before its column is written, and stands in no other.
pub fn gather_short(table: &mut [u32], rows: Rows, next: usize)
    requires { Behind table.old rows next }
    ensures { Spans table.old table.new rows.at (rows.count * rows.width) (gathered table.old (rows.at + (rows.count - 1) * rows.width) next rows.width) }
{
    let map = rows.last_row();
    for b in 0..rows.width {
        let q = table[map + b] as usize;
        lay_column(table, rows, b, next, q);
    }
}
