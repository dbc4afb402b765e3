#![tactic(auto)]

ghost use Rattle.std.specs.Prelude.{◌≡◌, ℕ, ◌≤◌, ◌<◌, length, get_or};
ghost use Rattle.thermal.specs.Thermal.{steady_state};
ghost use Rattle.frame.specs.Sheet.{Sheet, Ranges, temperature_max};
ghost use Rattle.frame.specs.Run.{start, step, exact_run};
ghost use Rattle.store.specs.Store.{jobs_max, levels_max};
ghost use Rattle.store.specs.Figures.{power_at, change_at, sheet_of};
ghost use Rattle.store.specs.Sheet.{sheet_read};
ghost use Rattle.store.specs.declared.Head.{Head};
ghost use Rattle.store.specs.declared.Store.{Store};
ghost use Rattle.run.specs.Run.{state_of};
ghost use Rattle.step.specs.Store.{steadies, job_in, Stored, Rests, Begun};

use run::{Job, Run};
use store::{Change, Head, LEVELS_MAX, ReadSheet, Store};

// Works out the steady-state temperatures once, for all jobs. Not copied into each caller: the archive's code has a bound.
#[inline(never)]
pub fn steady_states(store: &Store, resistance: u32) -> [u32; LEVELS_MAX]
    requires { (j : ℕ) → j < levels_max → steady_state (power_at store.now j) resistance ≤ temperature_max }
    ensures { result ≡ steadies store.now resistance }
{
    let mut levels = [0; LEVELS_MAX];
    for (j, level) in levels.iter_mut().enumerate() {
        *level = thermal::steady_state(store.powers[j], resistance) as u32;
    }
    levels
}

// A sheet's figures as a run takes them: those of its L, S and B lines, and the steady-state temperature of each level.
#[derive(Clone, Copy)]
pub struct Figures<'a> {
    pub store: &'a Store,
    pub steady: [u32; LEVELS_MAX],
}

impl<'a> Figures<'a> {
    // Those of a sheet that was read.
    pub fn of(sheet: ReadSheet<'a>) -> Figures<'a>
        ensures store { result.store.now ≡ sheet.entry.store.now }
        ensures steady { result.steady ≡ steadies sheet.entry.store.now sheet.entry.head.resistance }
        ensures stored { Stored (sheet_read sheet.entry) result.store.now result.steady }
    {
        Figures {
            store: sheet.store,
            steady: steady_states(sheet.store, sheet.head.resistance),
        }
    }

    // The cost of the change from level p to level j, which are plain numbers, as a run has its level.
    fn change(&self, p: u32, j: u32) -> Change
        requires { (p < levels_max) × (j < levels_max) }
        ensures { result ≡ change_at self.now.store.now p j }
    {
        self.store.changes[p as usize][j as usize]
    }

    // The figures of job i at level j, likewise.
    fn job(&self, i: u32, j: u32) -> Job
        requires { (i < jobs_max) × (j < levels_max) }
        ensures { result ≡ job_in self.now.store.now self.now.steady i j }
    {
        Job {
            work: self.store.works[i as usize][j as usize],
            steady: self.steady[j as usize],
        }
    }

    // The run after its next job at level j, on every sheet whose figures these are.
    pub fn next_job(&self, run: Run, j: u32) -> Run
        requires { Rests run self.now.store.now self.now.steady j }
        ensures { (s : Sheet) → Stored s self.now.store.now self.now.steady → state_of result ≡ step s (state_of run) j }
    {
        let change = self.change(run.level, j);
        let job = self.job(run.done, j);
        run.after(j, change, job)
    }

    // The run after its next jobs at the levels of a list, without rounding, on every sheet whose figures these are.
    pub fn run_levels(&self, first: Run, levels: &[u8]) -> Run
        requires { record {
          begun : Begun first self.now.store.now self.now.steady (length levels.now);
          below : (i : ℕ) → i < length levels.now → get_or levels.now i 0 < levels_max;
        } }
        ensures { (s : Sheet) → Ranges s → Stored s self.now.store.now self.now.steady → state_of result ≡ exact_run s (state_of first) levels.now }
    {
        let mut run = first;
        for &level in levels {
            run = self.next_job(run, level as u32);
        }
        run
    }
}

// The run before a sheet's first job: "time 0, energy 0, the start temperature and the start level".
pub fn start_of(head: Head) -> Run
    ensures { (store : Store) → state_of result ≡ start (sheet_of head store) }
{
    Run::fresh(0, head.start_level, 0, head.start_temperature as u64)
}
