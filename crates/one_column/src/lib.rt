#![tactic(auto)]

ghost use Rattle.std.specs.Prelude.{cond, ℕ, ◌+◌, ◌*◌, ◌-◌, ◌≤◌, ◌<◌, ltb, length, get_or};
ghost use Rattle.word.specs.Word.{far, near};
ghost use Rattle.one_column.specs.Column.{Column};

use cell_map::Rows;
use word::{FAR, cap};

// Writes column b of the rows, whose cells lead to cell q of the next job's rows: the first of these begins at `next`. A row's
// place is counted on: a product for each word takes a fifth more instructions, and `step_by` 6 to 47 % more for columns of 9 to 129
// words. Tables of few cells are short of the bar of docs/PERFORMANCE.md, 1.00 beside the hoisted C, as it is.
pub fn lay_column(table: &mut [u32], rows: Rows, b: usize, next: usize, q: usize)
    requires { record { behind : rows.at + b + (rows.count - 1) * rows.width < next; room : next + rows.count * rows.width ≤ length table.old } }
    ensures { Column table.old table.new (rows.at + b) rows.count rows.width (λ (a : ℕ). cond (ltb q rows.width) (near (get_or table.old (next + q + a * rows.width) 0)) far) }
{
    let at = rows.at + b;
    let mut k = 0;
    for _a in 0..rows.count {
        table[at + k] = if q < rows.width {
            cap(table[next + q + k])
        } else {
            FAR
        };
        k += rows.width;
    }
}
