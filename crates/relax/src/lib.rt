#![tactic(auto)]

ghost use Rattle.std.specs.Prelude.{◌≡◌, [], ℕ, ◌+◌, ◌*◌, ◌-◌, ◌≤◌, ◌<◌, length, take, get_or};
ghost use Rattle.frame.specs.Table.{tabulate};
ghost use Rattle.word.specs.Word.{settled};
ghost use Rattle.open_ways.specs.Layer.{relaxed};
ghost use Rattle.one_level.specs.Level.{Job};
ghost use Rattle.relax.specs.Levels.{Part, Levels};

use one_level::relax_level;
use open_ways::Layer;
use spans::copy;
use store::LEVELS_MAX;

// The words of a level that are worked on at once; the last time there may be fewer.
pub const PART_SIZE: usize = 384;

// Works out n words, from word x on, for every level before, into the first words of its part. What the parts hold behind them is open.
fn relax_part(
    table: &[u32],
    part: &mut [[u32; PART_SIZE]; LEVELS_MAX],
    layer: &Layer,
    x: usize,
    n: usize,
)
    requires { record { job : Job table.now layer.now x; words : Part layer.now.cells x n } }
    ensures { (p : ℕ) → p < layer.now.levels → take n (get_or part.new p []) ≡ tabulate (λ (q : ℕ). settled (relaxed layer.now table.now p (x + q))) 0 n }
{
    for (p, row) in part[..layer.levels].iter_mut().enumerate() {
        let (words, _) = row.split_at_mut(n);
        relax_level(table, words, layer, p, x);
    }
}

// Writes the first n words of every level's part to the table, from word x on.
fn copy_part(
    table: &mut [u32],
    part: &[[u32; PART_SIZE]; LEVELS_MAX],
    layer: &Layer,
    x: usize,
    n: usize,
)
    requires { record { inside : layer.now.at + layer.now.levels * layer.now.cells ≤ length table.old; words : Part layer.now.cells x n } }
    ensures { Levels table.old table.new layer.now.at layer.now.levels layer.now.cells x (x + n) (λ (p y : ℕ). get_or (get_or part.now p []) (y - x) 0) }
{
    for (p, row) in part[..layer.levels].iter().enumerate() {
        copy(table, layer.at + p * layer.cells + x, &row[..n]);
    }
}

// Works out all words of a job in the place of what follows it, from the first word of every level on: a move leads on, so
// that what is still to be read stands behind what is written. What the parts then hold is open: they are scratch, and nobody reads them.
pub fn relax_words(table: &mut [u32], part: &mut [[u32; PART_SIZE]; LEVELS_MAX], layer: &Layer)
    requires { Job table.old layer.now 0 }
    ensures { Levels table.old table.new layer.now.at layer.now.levels layer.now.cells 0 layer.now.cells (λ (p y : ℕ). settled (relaxed layer.now table.old p y)) }
{
    for x in (0..layer.cells).step_by(PART_SIZE) {
        let n = PART_SIZE.min(layer.cells - x);
        relax_part(table, part, layer, x, n);
        copy_part(table, part, layer, x, n);
    }
}
