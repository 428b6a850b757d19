// The imbalance of a plan.
ghost use Rattle.std.specs.Prelude.{◌≡◌};
ghost use Rattle.bound.specs.Order.{◌≼◌};
ghost use Rattle.chain.specs.Ranges.{Small};
ghost use Rattle.chain.specs.Job.{total_weight, ideal};
ghost use Rattle.chain.specs.Plan.{imbalance};
ghost use Rattle.parts.specs.Lent.{the};

use bound::Bound;
use parts::ValidJob;

// The imbalance of a bottleneck in thousandths of the ideal, rounded up. Inner: the bottleneck is no less than the
// ideal.
pub fn imbalance_of(job: ValidJob, total: u64, bottleneck: Bound) -> u64
    requires total { total ≡ total_weight (the job) }
    requires small { Small bottleneck }
    requires above { ideal (the job) ≼ bottleneck }
    ensures { result ≡ imbalance (the job.entry) bottleneck }
{
    let ideal = Bound {
        load: total,
        speed: parts::total(job.speeds),
    };
    if ideal.is_nought() {
        return 0;
    }
    let load = ideal.load * bottleneck.speed;
    let excess = bottleneck.load * ideal.speed - load;
    let thousandths = Bound {
        load: 1000 * excess,
        speed: load,
    };
    thousandths.rounded_up()
}
