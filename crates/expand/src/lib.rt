#![tactic(auto)]

ghost use Rattle.std.specs.Prelude.{IfSome, ℕ, ◌+◌, ◌*◌, ◌-◌, ◌≤◌, ◌<◌, length};
ghost use Rattle.spans.specs.Spans.{Spans};
ghost use Rattle.cell_map.specs.Rows.{Rising, Leading, Behind};
ghost use Rattle.expand.specs.Laid.{lead, laid};

use cell_map::{Rows, count_leading};
use columns::gather_short;
use one_row::gather;
use spans::set;
use word::FAR;

// A loop over a row of at most so many cells costs more than its words: such rows are written column by column.
const SHORT_ROW: usize = 16;

// Writes the first n cells of row a, which lead to a cell: from the rows of the next job, or 0 after the last job. What is read and what
// is written lie in one table, so that a row is told by its place. `next` is the place of the next job's rows, and no field of `Rows`:
// after the last job there is none, and what gathers would have to ask again.
fn lead_row(table: &mut [u32], rows: Rows, a: usize, n: usize, next: Option<usize>)
    requires { record {
      row : a < rows.count;
      room : rows.at + rows.count * rows.width ≤ length table.old;
      leading : Leading table.old (rows.at + (rows.count - 1) * rows.width) rows.width n;
      next-behind : IfSome next (λ p. Behind table.old rows p);
    } }
    ensures { Spans table.old table.new (rows.at + a * rows.width) n (λ (k : ℕ). lead table.old (rows.at + (rows.count - 1) * rows.width) next (a * rows.width) k) }
{
    let k = a * rows.width;
    match next {
        Some(next) => gather(table, rows.at + k, rows.last_row(), next + k, rows.width, n),
        None => set(table, rows.at + k, n, 0),
    }
}

// Writes all rows, the one of the map last: first the cells that lead to a cell, and then `far`.
fn write_rows(table: &mut [u32], rows: Rows, next: Option<usize>)
    requires { record {
      room : rows.at + rows.count * rows.width ≤ length table.old;
      rising : Rising table.old (rows.at + (rows.count - 1) * rows.width) rows.width;
      next-behind : IfSome next (λ p. Behind table.old rows p);
    } }
    ensures { Spans table.old table.new rows.at (rows.count * rows.width) (λ (y : ℕ). laid table.old (rows.at + (rows.count - 1) * rows.width) next rows.width y) }
{
    let last = rows.last_row();
    let n = count_leading(&table[last..last + rows.width]);
    for a in 0..rows.count {
        lead_row(table, rows, a, n, next);
        set(table, rows.at + a * rows.width + n, rows.width - n, FAR);
    }
}

// Writes what follows a job, by the map in the last row and the next job's rows, if a job follows.
pub fn expand_rows(table: &mut [u32], rows: Rows, next: Option<usize>)
    requires { record {
      room : rows.at + rows.count * rows.width ≤ length table.old;
      rising : Rising table.old (rows.at + (rows.count - 1) * rows.width) rows.width;
      next-behind : IfSome next (λ p. Behind table.old rows p);
    } }
    ensures { Spans table.old table.new rows.at (rows.count * rows.width) (laid table.old (rows.at + (rows.count - 1) * rows.width) next rows.width) }
{
    match next {
        Some(next) if rows.width <= SHORT_ROW => gather_short(table, rows, next),
        _ => write_rows(table, rows, next),
    }
}
