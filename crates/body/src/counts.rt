ghost use Rattle.std.specs.Prelude.{◌≤◌};
ghost use Rattle.store.specs.Store.{jobs_max, levels_max};

// How many jobs and levels a sheet has: "m (1 to 64), l (1 to 8)".
#[derive(Clone, Copy)]
pub struct Counts {
    pub jobs: usize,
    pub levels: usize,
    pub ghost few_jobs: { jobs ≤ jobs_max },
    pub ghost few_levels: { levels ≤ levels_max },
}
