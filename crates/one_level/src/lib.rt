#![tactic(auto)]

ghost use Rattle.std.specs.Prelude.{◌≡◌, ℕ, ◌+◌, ◌≤◌, ◌<◌, length};
ghost use Rattle.frame.specs.Table.{tabulate};
ghost use Rattle.word.specs.Word.{settled};
ghost use Rattle.open_ways.specs.Layer.{relaxed};
ghost use Rattle.one_level.specs.Level.{Job};

use one_way::Way;
use open_ways::Layer;
use store::LEVELS_MAX;
use ways::take_span;

// Works out words of level p before, from word x on, span by span. The level is a plain number, as each call has another.
pub fn relax_level(table: &[u32], words: &mut [u32], layer: &Layer, p: usize, x: usize)
    requires { record {
      job : Job table.now layer.now x;
      level : p < layer.now.levels;
      within : x + length words.old ≤ layer.now.cells;
    } }
    ensures { words.new ≡ tabulate (λ (q : ℕ). settled (relaxed layer.now table.now p (x + q))) 0 (length words.old) }
{
    let mut ways = [Way { from: 0, time: 0 }; LEVELS_MAX];
    let end = x + words.len();
    let mut y = x;
    // A span is as long as its ways let it be, so that no range has its steps.
    while y < end {
        let span = layer.find_ways(p, y, end, &mut ways);
        take_span(table, &mut words[y - x..span.to - x], span.ways);
        y = span.to;
    }
}
