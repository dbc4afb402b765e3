#![tactic(auto)]

ghost use Rattle.std.specs.Prelude.{◌≡◌, ◌+◌, ◌≤◌, length};
ghost use Rattle.word.specs.Word.{sum_max};
ghost use Rattle.one_way.specs.Way.{by_way, slot_of, Opened};

// A way that is open to a span of words: it leads word q of the span to word `from + q` of the table, and takes `time`.
// Table and ways go together and stay two: that the ways lead into the table is told of each span's length.
#[derive(Clone, Copy)]
pub struct Way {
    pub from: usize,
    pub time: u32,
}

// The time of word q by the way in place k of a group: there may be fewer ways than places, and the first way stands in the others.
pub fn time_by(table: &[u32], ways: &[Way], k: usize, q: usize) -> u32
    requires { Opened table.now (q + 1) ways.now }
    ensures { (result ≡ by_way table.now ways.now (slot_of (length ways.now) k) q) × (result ≤ sum_max) }
{
    let way = ways.get(k).unwrap_or(&ways[0]);
    table[way.from + q] + way.time
}
