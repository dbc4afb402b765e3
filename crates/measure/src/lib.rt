#![tactic(auto)]

ghost use Rattle.std.specs.Prelude.{◌≡◌, leb, position, Ok};
ghost use Rattle.frame.specs.Limits.{margins};
ghost use Rattle.frame.specs.Demands.{LevelList};
ghost use Rattle.store.specs.Sheet.{sheet_read};
ghost use Rattle.measure.specs.Measure.{measured_as, measured_by, measure_of};
ghost use Rattle.measure.specs.Meaning.{Meaning};

use refusal::Refusal;
use step::Figures;
use store::{ReadSheet, Store};

// The three margins of a list: "A negative margin is a broken limit, 0 is met".
#[derive(Clone, Copy)]
pub struct Margins {
    pub time: i64,
    pub energy: i64,
    pub temperature: i64,
}

// The first place of a list at which a level is l or more.
fn first_above(levels: &[u8], l: u32) -> Option<usize>
    ensures { result ≡ position (leb l) levels.now }
{
    levels.iter().position(|&j| l <= j as u32)
}

// The margins of a list of levels on a sheet that was read.
fn margins_of(sheet: ReadSheet, levels: &[u8]) -> Margins
    requires { let s = sheet_read sheet in LevelList s s.jobs levels.now }
    ensures { measured_by (Ok result) ≡ measured_as (margins (sheet_read sheet.entry) levels.now) }
{
    let deadline = sheet.head.deadline as u64;
    let budget = sheet.head.energy_budget as u64;
    let limit = sheet.head.temperature_limit as u64;
    let figures = Figures::of(sheet);
    let first = step::start_of(sheet.head);
    let last = figures.run_levels(first, levels);
    let time = margin::margin(deadline, last.time);
    let energy = margin::margin(budget, last.energy);
    let temperature = margin::margin(limit, last.peak);
    Margins {
        time,
        energy,
        temperature,
    }
}

// Measures a list of levels on a sheet.
pub fn measure(s: &[u8], levels: &[u8]) -> Result<Margins, Refusal>
    ensures value { measured_by result ≡ measure_of s.now levels.now }
    ensures meaning { Meaning s.now levels.now (measured_by result) }
{
    let mut store = Store::clear();
    let head = sheet::read(s, &mut store)?;
    if levels.len() != head.jobs as usize {
        return Err(Refusal::ListLength);
    }
    if let Some(place) = first_above(levels, head.levels) {
        return Err(Refusal::LevelTooHigh(place));
    }
    let sheet = ReadSheet {
        head,
        store: &store,
    };
    Ok(margins_of(sheet, levels))
}
