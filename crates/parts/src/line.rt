// A job that is ready to be divided.
ghost use Rattle.std.specs.Prelude.{◌≡◌};
ghost use Rattle.chain.specs.Job as counts;
ghost use Rattle.parts.specs.Prefix.{Prefix};
ghost use Rattle.parts.specs.Lent.{the};

use crate::job::ValidJob;

// A valid job, its prefix sums, and whether any hold is set.
#[derive(Clone, Copy)]
pub struct Line<'a> {
    pub job: ValidJob<'a>,
    pub sums: &'a [u32],
    pub held: bool,
    pub ghost prefix: { Prefix (the job) sums.now },
    pub ghost held_is: { held ≡ counts.held (the job) },
}
