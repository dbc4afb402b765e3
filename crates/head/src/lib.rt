#![tactic(auto)]

// The first two lines of a sheet, V and H: their figures, or the first fault of a line.
ghost use Rattle.std.specs.Prelude.{◌≡◌};
ghost use Rattle.head.specs.Head.{head_as, version_fields, head_fields};

use fields::{Fault, Range};
use store::{Head, JOBS_MAX, LEVELS_MAX, LIMIT_MAX, RESISTANCE_MAX, TEMPERATURE_MAX};
use text::Line;

// Ranges are written as structs: a constant takes no call.
const VERSION: Range = Range { least: 1, most: 1 };

const JOBS: Range = Range {
    least: 1,
    most: JOBS_MAX as u32,
};

const LEVELS: Range = Range {
    least: 1,
    most: LEVELS_MAX as u32,
};

const LIMIT: Range = Range {
    least: 0,
    most: LIMIT_MAX,
};

const TEMPERATURE: Range = Range {
    least: 0,
    most: TEMPERATURE_MAX,
};

const RESISTANCE: Range = Range {
    least: 0,
    most: RESISTANCE_MAX,
};

const ENERGY_STEP: Range = Range {
    least: 1,
    most: LIMIT_MAX,
};

const TEMPERATURE_STEP: Range = Range {
    least: 1,
    most: TEMPERATURE_MAX,
};

// Reads the number of a V line.
pub fn read_version(line: Line) -> Result<u32, Fault>
    ensures { result ≡ version_fields line.entry.bytes.now }
{
    let [version] = fields::read_fields(line, b'V', [VERSION])?;
    Ok(version)
}

// The figures of the V line and of the H line by their names.
pub fn head_of(version: u32, counts: [u32; 2], others: [u32; 8]) -> Head
    ensures { result ≡ head_as version counts others }
{
    let [jobs, levels] = counts;
    let [
        start_level,
        deadline,
        energy_budget,
        temperature_limit,
        start_temperature,
        resistance,
        energy_step,
        temperature_step,
    ] = others;
    Head {
        version,
        jobs,
        levels,
        start_level,
        deadline,
        energy_budget,
        temperature_limit,
        start_temperature,
        resistance,
        energy_step,
        temperature_step,
    }
}

// Reads the numbers of an H line on a sheet of a version: the start level is below the number of levels.
pub fn read_head(line: Line, version: u32) -> Result<Head, Fault>
    ensures { result ≡ head_fields version line.entry.bytes.now }
{
    if !fields::opens_with(line, b'H', 10) {
        return Err(Fault::Shape);
    }
    let counts = fields::read_numbers(text::behind(line.bytes, 1), 0, [JOBS, LEVELS])?;
    let [_, levels] = counts.values;
    let start = Range {
        least: 0,
        most: levels.saturating_sub(1),
    };
    let ranges = [
        start,
        LIMIT,
        LIMIT,
        TEMPERATURE,
        TEMPERATURE,
        RESISTANCE,
        ENERGY_STEP,
        TEMPERATURE_STEP,
    ];
    let others = fields::read_numbers(counts.rest, 2, ranges)?;
    Ok(head_of(version, counts.values, others.values))
}
