// Bisection: scope 5.12 to 5.16. All functions here are inner: their callers have tested the job.
#![tactic(auto)]

ghost use Rattle.std.specs.Prelude.{suc, ◌<◌, ◌≡◌, T, length};
ghost use Rattle.chain.specs.Ranges.{Small, Lendable};
ghost use Rattle.chain.specs.Job.{processors, ideal, widest, enough};
ghost use Rattle.chain.specs.Bisection.{first_ends, next_ends};
ghost use Rattle.chain.specs.Plan.{BisectionEnds};
ghost use Rattle.parts.specs.Kept.{KeptFrom};
ghost use Rattle.parts.specs.Lent.{the};
ghost use Rattle.probe.specs.Walk.{Rejected};
ghost use Rattle.bisection.specs.Closed.{Fitted, Closed};

use bound::Bound;
use chain::{Ends, Outcome};
use heuristic::heuristic_in;
use parts::{Found, Line, copy_front, ideal_of, measure_in, slowest_of};
use probe::probe_in;
use refusals::MAX_PROCESSORS;

// What bisection ends with: the bottleneck found, the count of its trials and, where the plan stands in the list
// already, the plan's bottleneck.
#[derive(Clone, Copy)]
pub struct Ended {
    pub bound: Bound,
    pub count: u32,
    pub measured: Option<Bound>,
}

// The ends after a round and, where a trial has fitted, the bottleneck of the last that did: it is the high end, and
// its walk stands in the list.
#[derive(Clone, Copy)]
pub struct Round {
    pub ends: Ends,
    pub fitted: Option<Bound>,
}

// Inner. One round of bisection: a trial at half the sum of the ends, in a list of its own. A fit brings the high end
// to that partition's bottleneck, and its separators to the lent list; a failure brings the low end to the next bid.
// The next trial begins with the last failed walk, which is nowhere past it: a good hint.
fn next_round(
    line: &Line,
    round: Round,
    failed: &mut [u32],
    trial: &mut [u32],
    separators: &mut [u32],
) -> Round
    requires enough { T (enough (the line.now.job)) }
    requires failed_room { processors (the line.now.job) < length failed.old }
    requires trial_room { processors (the line.now.job) < length trial.old }
    requires room { processors (the line.now.job) < length separators.old }
    requires small { Small round.ends.low × Small round.ends.high }
    requires fitted { Fitted (the line.now.job) round.fitted round.ends.high separators.old }
    ensures ends { result.ends ≡ next_ends (the line.now.job) round.ends }
    ensures fitted { Fitted (the line.now.job) result.fitted result.ends.high separators.new }
    ensures kept_from { KeptFrom (suc (processors (the line.now.job))) separators.old separators.new }
{
    let Ends { low, high } = round.ends;
    let middle = low.midpoint(high);
    let count = line.job.speeds.len() + 1;
    match probe_in(*line, middle, trial) {
        Outcome::Fits(_) => {
            copy_front(trial, count, separators);
            copy_front(failed, count, trial);
            let least = measure_in(*line, separators);
            Round {
                ends: Ends { low, high: least },
                fitted: Some(least),
            }
        }
        Outcome::Fails(bid) => {
            copy_front(trial, count, failed);
            Round {
                ends: Ends { low: bid, high },
                fitted: round.fitted,
            }
        }
    }
}

// Inner. All weight and the start-up work over the slowest speed.
fn widest_of(line: Line) -> Bound
    ensures { result ≡ widest (the line.entry.job) }
{
    let weight = line.sums[line.job.weights.len()];
    Bound {
        load: u64::from(weight) + u64::from(line.job.startup),
        speed: u64::from(slowest_of(line.job.speeds)),
    }
}

// Inner. The high end that bisection starts with: of a job with holds all weight and the start-up work over the slowest
// speed, else the bottleneck of the heuristic, whose separators are then left in front of the list.
fn first_high(line: Line, separators: &mut [u32]) -> Bound
    requires { processors (the line.job) < length separators.old }
    ensures value { result ≡ (first_ends (the line.entry.job)).high }
    ensures kept_from { KeptFrom (suc (processors (the line.entry.job))) separators.old separators.new }
{
    if line.held {
        return widest_of(line);
    }
    heuristic_in(line, separators);
    measure_in(line, separators)
}

// Inner. The rounds of bisection, once the trial at the ideal has failed with this next bid: until the two ends meet.
// The trials have a list of their own, which begins with the walk at the ideal.
fn bisect(line: &Line, next: Bound, separators: &mut [u32]) -> Ended
    requires enough { T (enough (the line.now.job)) }
    requires room { processors (the line.now.job) < length separators.old }
    requires rejected { Rejected (the line.now.job) (ideal (the line.now.job)) next }
    ensures bisection_ends { BisectionEnds (the line.now.job) result.count result.bound }
    ensures lendable { Lendable result.bound }
    ensures kept_from { KeptFrom (suc (processors (the line.now.job))) separators.old separators.new }
    ensures closed { Closed (the line.now.job) result.measured separators.new }
{
    let count = line.job.speeds.len() + 1;
    let mut failed = [0u32; MAX_PROCESSORS + 1];
    let mut trial = [0u32; MAX_PROCESSORS + 1];
    copy_front(separators, count, &mut failed);
    copy_front(separators, count, &mut trial);
    let mut low = next;
    let mut high = first_high(*line, separators);
    let mut fitted = None;
    let mut rounds = 0u32;
    let bound = loop {
        if high.at_most(low) {
            break low;
        }
        let ends = Ends { low, high };
        let round = next_round(
            line,
            Round { ends, fitted },
            &mut failed,
            &mut trial,
            separators,
        );
        low = round.ends.low;
        high = round.ends.high;
        fitted = round.fitted;
        rounds += 1;
    };
    Ended {
        bound,
        count: rounds + 1,
        measured: fitted,
    }
}

// Inner. Bisection: a trial at the ideal; if it fails, rounds between its next bid and a bound that fits. It leaves the
// walk of the last trial that fitted: where there is one that is the plan, and no walk at the bound found is needed.
// The line comes by reference, so that no call copies it to the stack.
pub fn bisection_ended(line: &Line, separators: &mut [u32]) -> Ended
    requires enough { T (enough (the line.now.job)) }
    requires room { processors (the line.now.job) < length separators.old }
    ensures bisection_ends { BisectionEnds (the line.now.job) result.count result.bound }
    ensures lendable { Lendable result.bound }
    ensures kept_from { KeptFrom (suc (processors (the line.now.job))) separators.old separators.new }
    ensures closed { Closed (the line.now.job) result.measured separators.new }
{
    let bound = ideal_of(*line);
    match probe_in(*line, bound, separators) {
        Outcome::Fits(_) => Ended {
            bound,
            count: 1,
            measured: Some(measure_in(*line, separators)),
        },
        Outcome::Fails(next) => bisect(line, next, separators),
    }
}

// Inner. Bisection, and no word of the plan.
pub fn bisection_in(line: &Line, separators: &mut [u32]) -> Found
    requires enough { T (enough (the line.now.job)) }
    requires room { processors (the line.now.job) < length separators.old }
    ensures bisection_ends { BisectionEnds (the line.now.job) result.count result.bound }
    ensures lendable { Lendable result.bound }
    ensures kept_from { KeptFrom (suc (processors (the line.now.job))) separators.old separators.new }
{
    let Ended { bound, count, .. } = bisection_ended(line, separators);
    Found { bound, count }
}
