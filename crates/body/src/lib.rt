#![tactic(auto)]

// The lines of a sheet after its H line: changes of level, jobs with their names, and all of them in order.
ghost use Rattle.std.specs.Prelude.{◌≡◌};
ghost use Rattle.reading.specs.Rest.{rest_of, rest_read};
ghost use Rattle.lines.specs.Lines.{found_in};
ghost use Rattle.body.specs.Body.{changes_from, name_from, jobs_from, body_from};

mod counts;

pub use counts::Counts;
use line_kinds::Kind;
use reading::{LineFault, Place};
use store::{LEVELS_MAX, Store};

// The lines before the L lines.
pub const HEAD_LINES: usize = 2;

// Reads the S lines: the place behind them.
fn read_changes<'a>(
    start: Place<'a>,
    counts: Counts,
    store: &mut Store,
) -> Result<Place<'a>, LineFault>
    ensures { found_in result store.new ≡ changes_from counts.levels counts.levels 0 (rest_of start.entry) store.old }
{
    let mut place = start;
    for p in 0..counts.levels {
        place = lines::read_block(place, Kind::Change(p), p * LEVELS_MAX, counts.levels, store)?;
    }
    Ok(place)
}

// Reads a line J, in one pass where that takes it, else field by field: the place behind it.
fn read_name(place: Place<'_>) -> Result<Place<'_>, LineFault>
    ensures { rest_read result ≡ name_from (rest_of place.entry) }
{
    if let Some(n) = fast_name_lines::take_name(place.rest) {
        return Ok(place.behind(n));
    }
    let ((), behind) = place.read(name_lines::check_name)?;
    Ok(behind)
}

// Reads the lines of the jobs: the place behind them.
fn read_jobs<'a>(
    start: Place<'a>,
    counts: Counts,
    store: &mut Store,
) -> Result<Place<'a>, LineFault>
    ensures { found_in result store.new ≡ jobs_from counts.levels counts.jobs 0 (rest_of start.entry) store.old }
{
    let mut place = start;
    for i in 0..counts.jobs {
        let works = read_name(place)?;
        place = lines::read_block(works, Kind::Work, i * LEVELS_MAX, counts.levels, store)?;
    }
    Ok(place)
}

// Reads all lines after the H line: the place behind them.
pub fn read_body<'a>(
    start: Place<'a>,
    counts: Counts,
    resistance: u32,
    store: &mut Store,
) -> Result<Place<'a>, LineFault>
    ensures { found_in result store.new ≡ body_from counts.jobs counts.levels resistance (rest_of start.entry) store.old }
{
    let changes = lines::read_block(start, Kind::Level(resistance), 0, counts.levels, store)?;
    let jobs = read_changes(changes, counts, store)?;
    read_jobs(jobs, counts, store)
}
