#![tactic(auto)]

ghost use Rattle.std.specs.Prelude.{◌≡◌};
ghost use Rattle.store.specs.Figures.{clear};
ghost use Rattle.sheet.specs.Reading.{read_in, cleared_in, reading_of};

use body::Counts;
use reading::Place;
use refusal::Refusal;
use store::{Head, Store};

const SIZE_MAX: usize = 20_480; // document 01: a longer sheet is refused (1)

// Reads a sheet to a store that is clear, or gives the first refusal of 1 to 6; the caller clears the store where it is refused.
fn read_lines(s: &[u8], store: &mut Store) -> Result<Head, Refusal>
    requires { store.old ≡ clear }
    ensures { cleared_in result store.new ≡ reading_of s.now }
{
    if SIZE_MAX < s.len() {
        return Err(Refusal::TooLong);
    }
    let (version, second) = Place::start(s).read(head::read_version)?;
    let (head, third) = second.read(|line| head::read_head(line, version))?;
    if head.temperature_limit < head.start_temperature {
        return Err(Refusal::Hot);
    }
    let counts = Counts {
        jobs: head.jobs as usize,
        levels: head.levels as usize,
    };
    let end = body::read_body(third, counts, head.resistance, store)?;
    if !end.rest.is_empty() {
        return Err(Refusal::Trailing(end.line));
    }
    Ok(head)
}

// Reads a sheet, or gives the first refusal of 1 to 6. The figures of its L, S and B lines go to the store, whatever it held; all else in
// it is then 0. The store is lent: head and store handed back as one value, of 6,700 bytes, go through two copies, and each call takes
// 18 KB of stack more, past the bound of 32 KB (measured). A caller has just made the store; it is cleared here again, so that nothing is
// asked of what it held.
pub fn read(s: &[u8], store: &mut Store) -> Result<Head, Refusal>
    ensures { read_in result store.new ≡ reading_of s.now }
{
    *store = Store::clear();
    let head = read_lines(s, store);
    if head.is_err() {
        *store = Store::clear();
    }
    head
}
