#![tactic(auto)]

ghost use Rattle.std.specs.Prelude.{◌≡◌};
ghost use Rattle.frame.specs.Sheet.{Sheet};
ghost use Rattle.frame.specs.Run.{fresh, step};
ghost use Rattle.run.specs.Run.{state_of, FiguresOf, Bounds};

use store::{Change, Work};

// A run so far, "one state that each job carries forward": jobs done, present level, time, energy, temperature, and the highest
// temperature at a job end.
#[derive(Clone, Copy)]
pub struct Run {
    pub done: u32,
    pub level: u32,
    pub time: u64,
    pub energy: u64,
    pub temperature: u64,
    pub peak: u64,
}

// A job's figures at a level: "the job's time and energy there" and the decay, and the level's steady-state temperature.
#[derive(Clone, Copy)]
pub struct Job {
    pub work: Work,
    pub steady: u32,
}

impl Run {
    // A run from which time counts anew and no job end is seen yet.
    pub fn fresh(done: u32, level: u32, energy: u64, temperature: u64) -> Run
        ensures { state_of result ≡ fresh done level energy temperature }
    {
        Run {
            done,
            level,
            time: 0,
            energy,
            temperature,
            peak: 0,
        }
    }

    // The run after the next job at `level`, on every sheet whose figures these are: "A job at a level adds the job's time and
    // energy there and those of the change from the level before."
    pub fn after(self, level: u32, change: Change, job: Job) -> Run
        requires { Bounds self job }
        ensures { (s : Sheet) → FiguresOf s self level change job → state_of result ≡ step s (state_of self) level }
    {
        let temperature = thermal::temperature_after(
            self.temperature,
            job.steady as u64,
            job.work.decay as u64,
        );
        Run {
            done: self.done + 1,
            level,
            time: self.time + change.time as u64 + job.work.time as u64,
            energy: self.energy + change.energy as u64 + job.work.energy as u64,
            temperature,
            peak: self.peak.max(temperature),
        }
    }
}
