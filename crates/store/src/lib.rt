#![tactic(auto)]

// What is kept of a sheet that was read: the figures of its V and H lines, and those of its L, S and B lines.
ghost use Rattle.std.specs.Prelude.{◌≡◌};
ghost use Rattle.store.specs.Figures.{clear};

mod sheet;

pub use sheet::ReadSheet;

// The figures of the V line and of the H line, in their order.
#[derive(Clone, Copy)]
pub struct Head {
    pub version: u32,
    pub jobs: u32,
    pub levels: u32,
    pub start_level: u32,
    pub deadline: u32,
    pub energy_budget: u32,
    pub temperature_limit: u32,
    pub start_temperature: u32,
    pub resistance: u32,
    pub energy_step: u32,
    pub temperature_step: u32,
}

// The upper ends of the ranges, by the names that the definitions have for them: "m (1 to 64), l (1 to 8)".
pub const JOBS_MAX: usize = 64;

pub const LEVELS_MAX: usize = 8;

// A deadline, an energy budget, an energy step: "to 2,000,000,000".
pub const LIMIT_MAX: u32 = 2_000_000_000;

// A temperature limit, a start temperature, a temperature step, a steady-state temperature: "to 20,000".
pub const TEMPERATURE_MAX: u32 = 20_000;

// "resistance R (0 to 20,000)"
pub const RESISTANCE_MAX: u32 = 20_000;

// "power P (0 to 100,000)"
pub const POWER_MAX: u32 = 100_000;

// A time or an energy, of a change or of a job: "to 10,000,000".
pub const COST_MAX: u32 = 10_000_000;

// "decay (0 to 65,536)"
pub const DECAY_MAX: u32 = 65_536;

// What a change of level costs: "S, time, energy of a change".
#[derive(Clone, Copy)]
pub struct Change {
    pub time: u32,
    pub energy: u32,
}

// What a job takes at a level: "B, time .., energy .., decay ..".
#[derive(Clone, Copy)]
pub struct Work {
    pub time: u32,
    pub energy: u32,
    pub decay: u32,
}

// The figures of the L, S and B lines: those of a change by the level left and then the level entered, those of a job by the job and
// then the level.
#[derive(Clone, Copy)]
pub struct Store {
    pub powers: [u32; LEVELS_MAX],
    pub changes: [[Change; LEVELS_MAX]; LEVELS_MAX],
    pub works: [[Work; LEVELS_MAX]; JOBS_MAX],
}

const NO_CHANGE: Change = Change { time: 0, energy: 0 };

const NO_WORK: Work = Work {
    time: 0,
    energy: 0,
    decay: 0,
};

impl Store {
    // A store of no figures.
    pub fn clear() -> Store
        ensures { result ≡ clear }
    {
        Store {
            powers: [0; LEVELS_MAX],
            changes: [[NO_CHANGE; LEVELS_MAX]; LEVELS_MAX],
            works: [[NO_WORK; LEVELS_MAX]; JOBS_MAX],
        }
    }
}
