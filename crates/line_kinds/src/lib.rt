#![tactic(auto)]

ghost use Rattle.std.specs.Prelude.{◌≡◌, ◌<◌};
ghost use Rattle.line_kinds.specs.Figures.{cost_range, steady_fields, change_entry, work_entry, fields_for, put, places_for};

use fields::{Fault, Range};
use store::{COST_MAX, Change, DECAY_MAX, LEVELS_MAX, POWER_MAX, Store, TEMPERATURE_MAX, Work};
use text::Line;

// Which lines: L, with the sheet's thermal resistance; S, of the changes from a level; B. An enum and no trait: one loop takes all three,
// and one reads them; a type for each would put three copies of both into mask memory, and a `dyn` is no plainer where all three are
// known.
#[derive(Clone, Copy)]
pub enum Kind {
    Level(u32),
    Change(usize),
    Work,
}

// What a line says: the power of a level; the cost of a change; what a job takes at a level.
#[derive(Clone, Copy)]
pub enum Entry {
    Level(u32),
    Change(Change),
    Work(Work),
}

// The steady-state temperature "must be at most 20,000".
const STEADY_STATE_MAX: u64 = TEMPERATURE_MAX as u64;

// Ranges are written as structs: a constant takes no call.
pub const POWER: Range = Range {
    least: 0,
    most: POWER_MAX,
};

pub const COST: Range = Range {
    least: 0,
    most: COST_MAX,
};

const NO_COST: Range = Range { least: 0, most: 0 };

pub const JOB_TIME: Range = Range {
    least: 1,
    most: COST_MAX,
};

pub const DECAY: Range = Range {
    least: 0,
    most: DECAY_MAX,
};

// What an L line of a power says: the steady-state temperature that the power gives is in range too.
pub fn level_entry(power: u32, resistance: u32) -> Result<Entry, Fault>
    ensures { result ≡ steady_fields resistance power }
{
    if STEADY_STATE_MAX < thermal::steady_state(power, resistance) {
        return Err(Fault::Range(2));
    }
    Ok(Entry::Level(power))
}

// What an S line says.
pub fn change_entry(numbers: [u32; 2]) -> Entry
    ensures { result ≡ change_entry numbers }
{
    let [time, energy] = numbers;
    Entry::Change(Change { time, energy })
}

// What a B line says.
pub fn work_entry(numbers: [u32; 3]) -> Entry
    ensures { result ≡ work_entry numbers }
{
    let [time, energy, decay] = numbers;
    let work = Work {
        time,
        energy,
        decay,
    };
    Entry::Work(work)
}

// The range of the time and of the energy of a change from level p to level j: "From a level to itself both must be 0".
pub fn cost_range(p: usize, j: usize) -> Range
    ensures { result ≡ cost_range p j }
{
    if j == p { NO_COST } else { COST }
}

// Reads line j, from 0, of the lines of a kind. A twin of `take_line` of `fast_lines`, which says why.
pub fn read_line(line: Line, kind: Kind, j: usize) -> Result<Entry, Fault>
    ensures { result ≡ fields_for kind j line.entry.bytes.now }
{
    match kind {
        Kind::Level(resistance) => {
            let [power] = fields::read_fields(line, b'L', [POWER])?;
            level_entry(power, resistance)
        }
        Kind::Change(p) => {
            let range = cost_range(p, j);
            let numbers = fields::read_fields(line, b'S', [range, range])?;
            Ok(change_entry(numbers))
        }
        Kind::Work => {
            let numbers = fields::read_fields(line, b'B', [JOB_TIME, COST, DECAY])?;
            Ok(work_entry(numbers))
        }
    }
}

// Puts what a line says in place k of all that are of its kind, in the order in which a sheet has them; k is a plain number, as each
// call has another.
pub fn put_entry(store: &mut Store, k: usize, entry: Entry)
    requires { k < places_for entry }
    ensures { store.new ≡ put k entry store.old }
{
    match entry {
        Entry::Level(power) => {
            store.powers[k] = power;
        }
        Entry::Change(change) => {
            store.changes[k / LEVELS_MAX][k % LEVELS_MAX] = change;
        }
        Entry::Work(work) => {
            store.works[k / LEVELS_MAX][k % LEVELS_MAX] = work;
        }
    }
}
