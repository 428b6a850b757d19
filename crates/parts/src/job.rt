// A job by its lists: as it is lent, and once it is tested.
ghost use Rattle.chain.specs.Job.{job_of, Valid};

// A job as its lists are lent: whether it is of the second edition, its start-up work, the speeds and the holds of its
// processors, and the weights of its tasks. Nothing of it is tested.
#[derive(Clone, Copy)]
pub struct JobLists<'a> {
    pub second: bool,
    pub startup: u32,
    pub speeds: &'a [u32],
    pub holds: &'a [u16],
    pub weights: &'a [u32],
}

// A job within the limits, with a hold for each processor and the start-up work that counts.
#[derive(Clone, Copy)]
pub struct ValidJob<'a> {
    pub second: bool,
    pub startup: u32,
    pub speeds: &'a [u32],
    pub holds: &'a [u16],
    pub weights: &'a [u32],
    pub ghost valid: { Valid (job_of startup speeds.now holds.now weights.now) },
}
