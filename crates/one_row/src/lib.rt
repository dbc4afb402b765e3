#![tactic(auto)]

ghost use Rattle.std.specs.Prelude.{ℕ, ◌+◌, ◌≤◌, length, get_or};
ghost use Rattle.word.specs.Word.{near};
ghost use Rattle.spans.specs.Spans.{Spans};
ghost use Rattle.cell_map.specs.Rows.{Leading};

use word::cap;

// Writes the first n cells of a row, from the row of the next job at `row`. The map is read behind what is written, or in its
// place. Parts are taken in the loop so that three pointers are worked out once: an index into the whole table takes a sum for
// each word.
pub fn gather(table: &mut [u32], at: usize, map: usize, row: usize, width: usize, n: usize)
    requires { record { map-behind : at ≤ map; row-behind : map + width ≤ row; room : row + width ≤ length table.old; leading : Leading table.old map width n } }
    ensures { Spans table.old table.new at n (λ (k : ℕ). near (get_or table.old (row + get_or table.old (map + k) 0) 0)) }
{
    let map_end = map + width;
    let row_end = row + width;
    let at_end = at + width;
    for k in 0..n {
        let q = table[map..map_end][k] as usize;
        table[at..at_end][k] = cap(table[row..row_end][q]);
    }
}
