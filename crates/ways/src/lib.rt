#![tactic(auto)]

ghost use Rattle.std.specs.Prelude.{◌≡◌, ℕ, ◌≤◌, length};
ghost use Rattle.frame.specs.Table.{tabulate};
ghost use Rattle.word.specs.Word.{settled};
ghost use Rattle.one_way.specs.Way.{Leads, Opened};
ghost use Rattle.least_way.specs.Least.{least_by, least_in};

use least_way::least;
use one_way::Way;
use word::{NO_WAY, seal};

// Sets the words of a span to the least time by the ways in N places: a word is made at once, and stored once. N is a constant, so that
// no loop over the ways is left for each word, and four words are made at a time.
fn by<const N: usize>(table: &[u32], span: &mut [u32], ways: &[Way])
    requires { record { ways : Opened table.now (length span.old) ways.now; some : 1 ≤ N } }
    ensures { span.new ≡ tabulate (λ (q : ℕ). settled (least_in table.now ways.now N q)) 0 (length span.old) }
{
    for (q, word) in span.iter_mut().enumerate() {
        *word = seal(least::<N>(table, ways, q));
    }
}

// Sets the words of a span to the least time by the ways that are open to it: 4,294,967,295 "where no way exists".
pub fn take_span(table: &[u32], span: &mut [u32], ways: &[Way])
    requires { Leads table.now (length span.old) ways.now }
    ensures { span.new ≡ tabulate (λ (q : ℕ). settled (least_by table.now ways.now (length ways.now) q)) 0 (length span.old) }
{
    match ways.len() {
        0 => span.fill(NO_WAY),
        1..=2 => by::<2>(table, span, ways),
        3..=4 => by::<4>(table, span, ways),
        5..=6 => by::<6>(table, span, ways),
        _ => by::<8>(table, span, ways),
    }
}
