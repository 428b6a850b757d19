// Nicol's search: scope 5.17 to 5.22. All functions here are inner: their callers have tested the job.
#![tactic(auto)]

ghost use Rattle.std.specs.Prelude.{suc, ◌+◌, ◌/◌, ◌≤◌, ◌<◌, ◌^◌, ◌≡◌, not, T, length};
ghost use Rattle.chain.specs.Lists.{is_first};
ghost use Rattle.chain.specs.Ranges.{Small, Lendable};
ghost use Rattle.chain.specs.Job as counts;
ghost use Rattle.chain.specs.Job.{tasks, processors, last, part_bound};
ghost use Rattle.chain.specs.Nicol.{fits_at, first_fit, start_on, Comes, settled};
ghost use Rattle.chain.specs.Plan.{NicolEnds};
ghost use Rattle.parts.specs.Kept.{KeptFrom};
ghost use Rattle.parts.specs.Lent.{the};

use bound::Bound;
use chain::Outcome;
use parts::{Found, Line, part_bound, unstarted};
use probe::{Point, walk};

// The smallest index that fits, and the trials that found it.
#[derive(Clone, Copy)]
struct FirstFit {
    index: usize,
    trials: u32,
}

// Inner. The middle of a range, rounded down.
fn middle_of(low: usize, high: usize) -> usize
    requires { low + high < 2 ^ 33 }
    ensures { result ≡ (low + high) / 2 }
{
    (low + high) / 2
}

// Inner. The bound of the part from a to j on processor p.
fn bound_to(line: Line, p: usize, a: usize, j: usize) -> Bound
    requires { (p < processors (the line.job)) × (a ≤ j) × (j ≤ tasks (the line.job)) }
    ensures value { result ≡ part_bound (the line.entry.job) p a j }
    ensures small { Small result }
{
    part_bound(line.job.startup, line.job.speeds[p], line.sums, a, j)
}

// Inner. A trial of the whole job at the bound of the part from a to j on processor p. What it writes is a hint for the
// next and no more.
fn trial_at(line: Line, p: usize, a: usize, j: usize, separators: &mut [u32]) -> bool
    requires free { T (not (counts.held (the line.job))) }
    requires room { processors (the line.job) < length separators.old }
    requires place { (p < processors (the line.job)) × (a ≤ j) × (j ≤ tasks (the line.job)) }
    ensures value { result ≡ fits_at (the line.entry.job) p a j }
    ensures kept_from { KeptFrom (suc (processors (the line.entry.job))) separators.old separators.new }
{
    let bound = bound_to(line, p, a, j);
    matches!(
        walk::<false>(&line, bound, Point::FIRST, separators),
        Outcome::Fits(_)
    )
}

// Inner. The same. Without start-up work the trial is compiled for 0.
fn fits_at(line: Line, p: usize, a: usize, j: usize, separators: &mut [u32]) -> bool
    requires free { T (not (counts.held (the line.job))) }
    requires room { processors (the line.job) < length separators.old }
    requires place { (p < processors (the line.job)) × (a ≤ j) × (j ≤ tasks (the line.job)) }
    ensures value { result ≡ fits_at (the line.entry.job) p a j }
    ensures kept_from { KeptFrom (suc (processors (the line.entry.job))) separators.old separators.new }
{
    if line.job.startup == 0 {
        let line = Line {
            job: unstarted(line.job),
            sums: line.sums,
            held: line.held,
        };
        return trial_at(line, p, a, j, separators);
    }
    trial_at(line, p, a, j, separators)
}

// Inner. The smallest index from a to N that fits, by halving, for a processor to which the search comes and whose part
// starts at a. The range is halved and its trials are counted, which no method of std's does.
fn first_fit(line: Line, p: usize, a: usize, separators: &mut [u32]) -> FirstFit
    requires free { T (not (counts.held (the line.job))) }
    requires room { processors (the line.job) < length separators.old }
    requires place { (p < last (the line.job)) × (a ≡ start_on (the line.job) p) × Comes (the line.job) p }
    ensures index { result.index ≡ first_fit (the line.entry.job) p a }
    ensures trials { T (is_first (settled (the line.entry.job) p) result.trials) }
    ensures kept_from { KeptFrom (suc (processors (the line.entry.job))) separators.old separators.new }
{
    let mut low = a;
    let mut high = line.job.weights.len();
    let mut trials = 0u32;
    while low < high {
        let middle = middle_of(low, high);
        trials += 1;
        if fits_at(line, p, a, middle, separators) {
            high = middle;
        } else {
            low = middle + 1;
        }
    }
    FirstFit { index: low, trials }
}

// Inner. Nicol's search: processor by processor the smallest part at whose bound the job fits; the least of these
// bounds, and of all that remains for the last, is the bottleneck. Where an empty part fits, it is nought.
pub fn nicol_in(line: Line, separators: &mut [u32]) -> Found
    requires free { T (not (counts.held (the line.job))) }
    requires room { processors (the line.job) < length separators.old }
    ensures nicol_ends { NicolEnds (the line.entry.job) result.count result.bound }
    ensures lendable { Lendable result.bound }
    ensures kept_from { KeptFrom (suc (processors (the line.entry.job))) separators.old separators.new }
{
    let last = line.job.speeds.len() - 1;
    let mut least = Bound::INFINITE;
    let mut count = 0u32;
    let mut a = 0;
    for p in 0..last {
        let FirstFit { index: end, trials } = first_fit(line, p, a, separators);
        count += trials;
        if end == a {
            return Found {
                bound: Bound::ZERO,
                count,
            };
        }
        least = least.lesser(bound_to(line, p, a, end));
        a = end - 1;
    }
    let rest = bound_to(line, last, a, line.job.weights.len());
    Found {
        bound: least.lesser(rest),
        count,
    }
}
