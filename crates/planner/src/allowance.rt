// The allowance of a method. All functions here are inner: the job is within the limits.
ghost use Rattle.std.specs.Prelude.{◌+◌, ◌≤◌, ◌<◌, ◌^◌, cond, ◌&&◌, eqb, ◌≡◌};
ghost use Rattle.chain.specs.Lists.{greatest_of, digits};
ghost use Rattle.chain.specs.Plan.{breadth, difference, allowance};
ghost use Rattle.parts.specs.Lent.{the, edition};

use chain::Method;
use parts::{ValidJob, any_hold, slowest_of, total};

// The greatest of a list, 0 of none.
fn greatest_of(values: &[u32]) -> u32
    ensures { result ≡ greatest_of values.now }
{
    let mut most = 0u32;
    for value in values {
        most = most.max(*value);
    }
    most
}

// The weight and the start-up work in D: the heaviest weight, all weight where a hold is set.
fn breadth_of(job: ValidJob) -> u64
    ensures { result ≡ breadth (the job.entry) }
{
    let weight = if any_hold(job) {
        total(job.weights)
    } else {
        u64::from(greatest_of(job.weights))
    };
    weight + u64::from(job.startup)
}

// D, that weight and the start-up work, times the fastest speed squared, over the slowest speed.
fn difference_of(job: ValidJob) -> u64
    ensures { result ≡ difference (the job.entry) }
{
    let fastest = u64::from(greatest_of(job.speeds));
    let slowest = u64::from(slowest_of(job.speeds));
    breadth_of(job) * (fastest * fastest) / slowest
}

// How many binary digits a number has, 0 having none: those of the 64 that are not leading zeros.
fn digits_of(n: u64) -> u32
    ensures value { result ≡ digits n }
    ensures upper_bound { result ≤ 64 }
{
    64 - n.leading_zeros()
}

// The allowance of bidding: 2 in the second edition where the last processor is number 0, else one more than `most`,
// which is (P − 1) × N.
fn bidding_allowance(second: bool, last: usize, most: usize) -> u32
    requires { most + 1 < 2 ^ 32 }
    ensures { result ≡ cond (second && eqb last 0) 2 (most + 1) }
{
    if second && last == 0 {
        return 2;
    }
    (most + 1) as u32
}

// The allowance of a method.
pub fn allowance_of(method: Method, job: ValidJob) -> u32
    ensures { result ≡ allowance (edition job.entry) method (the job.entry) }
{
    let last = job.speeds.len() - 1;
    let most = last * job.weights.len();
    match method {
        Method::Table => most as u32,
        Method::Bidding => bidding_allowance(job.second, last, most),
        Method::Bisection => 1 + digits_of(difference_of(job)),
        Method::Nicol => last as u32 * digits_of(job.weights.len() as u64),
    }
}
