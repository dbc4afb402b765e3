#![tactic(auto)]

ghost use Rattle.std.specs.Prelude.{◌≡◌, ◌+◌, ◌≤◌};
ghost use Rattle.reading.specs.Rest.{rest_of};
ghost use Rattle.line_kinds.specs.Figures.{places_of};
ghost use Rattle.lines.specs.Lines.{block_from, found_in, taken_from, taken_in};

use line_kinds::Kind;
use reading::{LineFault, Place};
use store::Store;

// Takes lines of a block of n lines of a kind to the places of the store from `base` on, each in one pass, up to one that is not taken:
// how many, and the place behind them. A loop of its own: with one that also reads lines field by field the longest sheet takes 1.26
// times the plain C, and misses its bar of 1.20 in docs/PERFORMANCE.md.
fn take_lines<'a>(
    start: Place<'a>,
    kind: Kind,
    base: usize,
    n: usize,
    store: &mut Store,
) -> (usize, Place<'a>)
    requires { base + n ≤ places_of kind }
    ensures { taken_in result store.new ≡ taken_from kind base n 0 (rest_of start.entry) store.old }
{
    let mut place = start;
    for j in 0..n {
        let Some((entry, size)) = fast_lines::take_line(place.rest, kind, j) else {
            return (j, place);
        };
        line_kinds::put_entry(store, base + j, entry);
        place = place.behind(size);
    }
    (n, place)
}

// Reads n lines of a kind to the places of the store from `base` on: the place in the text behind them. Those that are taken in one pass
// first, then the others field by field.
// Place and store stay two: of what held the store by `&mut` each contract would have to say besides that it still holds the same one.
pub fn read_block<'a>(
    start: Place<'a>,
    kind: Kind,
    base: usize,
    n: usize,
    store: &mut Store,
) -> Result<Place<'a>, LineFault>
    requires { base + n ≤ places_of kind }
    ensures { found_in result store.new ≡ block_from kind base n 0 (rest_of start.entry) store.old }
{
    let (taken, behind) = take_lines(start, kind, base, n, store);
    let mut place = behind;
    for j in taken..n {
        let (entry, next) = place.read(|line| line_kinds::read_line(line, kind, j))?;
        line_kinds::put_entry(store, base + j, entry);
        place = next;
    }
    Ok(place)
}
