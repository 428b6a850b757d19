// Bidding: a trial at the ideal, then at each least next bid until one fits. All functions here are inner: their
// callers have tested the job. Those that are told HELD are compiled twice: for jobs with holds, and for those
// without, which ask for none.
#![tactic(auto)]

ghost use Rattle.std.specs.Prelude.{suc, ◌+◌, ◌-◌, ◌≤◌, ◌<◌, ◌≡◌, not, ◌++◌, T, length, drop};
ghost use Rattle.bound.specs.Order.{◌≺◌};
ghost use Rattle.chain.specs.Job as counts;
ghost use Rattle.chain.specs.Job.{tasks, processors, last, enough, within};
ghost use Rattle.chain.specs.Probe.{walk, fits, probe};
ghost use Rattle.chain.specs.Ranges.{Lendable, Narrow};
ghost use Rattle.chain.specs.Plan.{BiddingEnds};
ghost use Rattle.parts.specs.Lent.{the};
ghost use Rattle.probe.specs.Walk.{begun, Reached};
ghost use Rattle.bidding.specs.Failed.{FailedWalk};
ghost use Rattle.bidding.specs.Blocks.{least_from, laid_bid, Laid, Come, Passes, Shared, Known, Leasts};

use bound::Bound;
use chain::Outcome;
use parts::{Found, Line, ideal_of};
use probe::{Point, bid_of, part_end, rest_of};
use refusals::MAX_PROCESSORS;

// The least bid is kept for each block of so many processors before the last,
const BLOCK: usize = 8;
// and there are so many blocks at most.
const BLOCKS: usize = (MAX_PROCESSORS + BLOCK - 2) / BLOCK;

// Inner. Where the walk at the next bid parts from the failed walk in front of the list: before the first processor
// whose bid is within it. Up to there the separators and the bids stay.
fn parting<const HELD: bool>(line: Line, next: Bound, separators: &[u32]) -> Point
    requires enough { T (enough (the line.job)) }
    requires failed { FailedWalk (the line.job) next separators.now }
    requires held_is { T (counts.held (the line.job)) → T HELD }
    ensures { Reached (the line.entry.job) next separators.now result }
{
    let last = line.job.speeds.len() - 1;
    let mut least = Bound::INFINITE;
    let mut start = 0;
    for processor in 0..last {
        let end = separators[processor + 1] as usize;
        let bid = bid_of::<HELD>(line, processor, start, end);
        if bid.at_most(next) {
            return Point {
                processor,
                start,
                least,
            };
        }
        least = least.lesser(bid);
        start = end;
    }
    Point {
        processor: last,
        start,
        least,
    }
}

// Where a processor's part ends, and the processor's bid for one more task, if there is one.
#[derive(Clone, Copy)]
pub struct Share {
    pub end: usize,
    pub bid: Bound,
}

// Inner. The part of processor p from a on, by a search.
fn found_share<const HELD: bool>(line: Line, bound: Bound, p: usize, a: usize, hint: usize) -> Share
    requires lendable { Lendable bound }
    requires place { (p < processors (the line.job)) × (a < tasks (the line.job)) }
    requires held_is { T (counts.held (the line.job)) → T HELD }
    ensures { Shared (the line.entry.job) p a bound result }
{
    let end = part_end::<HELD>(line, p, a, bound, hint);
    let bid = if end < line.job.weights.len() {
        bid_of::<HELD>(line, p, a, end)
    } else {
        Bound::INFINITE
    };
    Share { end, bid }
}

// Inner. The part of processor p from a on. It was one from `was` to `old`, within the bound. Where it begins
// there, it stays if its bid is above the bound, and most often takes no more than the one task if not. Else it is
// looked for.
fn share_at<const HELD: bool>(
    line: Line,
    bound: Bound,
    p: usize,
    a: usize,
    was: usize,
    old: usize,
) -> Share
    requires lendable { Lendable bound × Narrow bound }
    requires place { (p < processors (the line.job)) × (a < tasks (the line.job)) }
    requires laid { (was ≤ old) × (old < tasks (the line.job)) × T (within (the line.job) p was old bound) }
    requires held_is { T (counts.held (the line.job)) → T HELD }
    ensures { Shared (the line.entry.job) p a bound result }
{
    if a == was {
        let bid = bid_of::<HELD>(line, p, a, old);
        if !bid.at_most(bound) {
            return Share { end: old, bid };
        }
        let more = old + 1;
        if more < line.job.weights.len() {
            let next = bid_of::<HELD>(line, p, a, more);
            if !next.at_most(bound) {
                return Share {
                    end: more,
                    bid: next,
                };
            }
        }
    }
    found_share::<HELD>(line, bound, p, a, old)
}

// Inner. The walk at the bound over the processors from `first` to before `stop`, or to where every task is placed.
// It answers with where it stands then, and the least bid of these processors.
fn walk_block<const HELD: bool>(
    line: Line,
    bound: Bound,
    first: usize,
    stop: usize,
    start: usize,
    separators: &mut [u32],
) -> Point
    requires lendable { Lendable bound × Narrow bound }
    requires room { processors (the line.job) < length separators.old }
    requires come { Come (the line.job) bound separators.old first start }
    requires block { (first ≤ stop) × (stop ≤ last (the line.job)) }
    requires held_is { T (counts.held (the line.job)) → T HELD }
    ensures { Passes (the line.entry.job) bound separators.old separators.new first stop result }
{
    let n = line.job.weights.len();
    let mut least = Bound::INFINITE;
    let mut was = separators[first] as usize;
    let mut a = start;
    for p in first..stop {
        let old = separators[p + 1] as usize;
        separators[p] = a as u32;
        let share = share_at::<HELD>(line, bound, p, a, was, old);
        a = share.end;
        if n <= a {
            return Point {
                processor: p + 1,
                start: a,
                least,
            };
        }
        least = least.lesser(share.bid);
        was = old;
    }
    Point {
        processor: stop,
        start: a,
        least,
    }
}

// Inner. The same, where the least bid of these processors in the walk before is known: if the walk meets that one
// before `first` and the least bid is above the bound, they go on together, and nothing is to be done.
fn pass_block<const HELD: bool>(
    line: Line,
    bound: Bound,
    first: usize,
    stop: usize,
    start: usize,
    known: Bound,
    separators: &mut [u32],
) -> Point
    requires lendable { Lendable bound × Narrow bound }
    requires room { processors (the line.job) < length separators.old }
    requires come { Come (the line.job) bound separators.old first start }
    requires block { (first ≤ stop) × (stop ≤ last (the line.job)) }
    requires narrow { Narrow known }
    requires known { bound ≺ known → known ≡ least_from (laid_bid (the line.job) separators.old) first (stop - first) }
    requires held_is { T (counts.held (the line.job)) → T HELD }
    ensures { Passes (the line.entry.job) bound separators.old separators.new first stop result }
{
    if start == separators[first] as usize && !known.at_most(bound) {
        return Point {
            processor: stop,
            start: separators[stop] as usize,
            least: known,
        };
    }
    walk_block::<HELD>(line, bound, first, stop, start, separators)
}

// Inner. The probe at the bound, block by block: writes the separators of the processors that it comes to, whether
// it fits or not, and answers. The list of leasts has the least bid of each block in the walk that stands in front
// of the separators, or one at most the bound where none is known; it is left with those of this walk, where it
// fails.
fn walk_blocks<const HELD: bool>(
    line: Line,
    bound: Bound,
    separators: &mut [u32],
    leasts: &mut [Bound; BLOCKS],
) -> Outcome
    requires lendable { Lendable bound × Narrow bound }
    requires room { processors (the line.job) < length separators.old }
    requires laid { 0 < tasks (the line.job) → Laid (the line.job) bound 0 separators.old }
    requires known { Known (the line.job) bound separators.old leasts.old }
    requires held_is { T (counts.held (the line.job)) → T HELD }
    ensures value { result ≡ probe (the line.entry.job) bound }
    ensures separators { separators.new ≡ begun (the line.entry.job) bound separators.old }
    ensures leasts { T (not (fits (the line.entry.job) bound)) → Leasts (the line.entry.job) bound leasts.new }
{
    let last = line.job.speeds.len() - 1;
    let n = line.job.weights.len();
    let mut best = Bound::INFINITE;
    let mut a = 0;
    if n <= a {
        return Outcome::Fits(0);
    }
    for k in 0..last.div_ceil(BLOCK) {
        let first = BLOCK * k;
        let stop = last.min(first + BLOCK);
        let known = leasts[k];
        let point = pass_block::<HELD>(line, bound, first, stop, a, known, separators);
        a = point.start;
        if n <= a {
            return Outcome::Fits(point.processor);
        }
        leasts[k] = point.least;
        best = best.lesser(point.least);
    }
    separators[last] = a as u32;
    let rest = rest_of::<HELD>(line, last, a);
    if rest.at_most(bound) {
        return Outcome::Fits(line.job.speeds.len());
    }
    Outcome::Fails(best.lesser(rest))
}

// Inner. The trials, one after the other. Each walk goes on with the one before where the two meet.
fn trials<const HELD: bool>(line: Line, separators: &mut [u32]) -> Found
    requires enough { T (enough (the line.job)) }
    requires room { processors (the line.job) < length separators.old }
    requires held_is { T (counts.held (the line.job)) → T HELD }
    ensures bidding_ends { BiddingEnds (the line.entry.job) result.count result.bound }
    ensures separators { let job = the line.entry.job in
        separators.new ≡ walk job result.bound ++ drop (suc (processors job)) separators.old }
{
    let count = line.job.speeds.len();
    let n = line.job.weights.len() as u32;
    let mut bound = ideal_of(line);
    let mut leasts = [Bound::ZERO; BLOCKS];
    let mut failures = 0;
    separators[..count].fill(0);
    loop {
        match walk_blocks::<HELD>(line, bound, separators, &mut leasts) {
            Outcome::Fits(visited) => {
                separators[visited..count + 1].fill(n);
                return Found {
                    bound,
                    count: failures + 1,
                };
            }
            Outcome::Fails(next) => {
                bound = next;
                failures += 1;
            }
        }
    }
}

// Inner. Bidding: the bound found, and the count of trials. It leaves the walk at that bound.
pub fn bidding_in(line: &Line, separators: &mut [u32]) -> Found
    requires enough { T (enough (the line.now.job)) }
    requires room { processors (the line.now.job) < length separators.old }
    ensures bidding_ends { BiddingEnds (the line.now.job) result.count result.bound }
    ensures separators { let job = the line.now.job in
        separators.new ≡ walk job result.bound ++ drop (suc (processors job)) separators.old }
{
    if line.held {
        return trials::<true>(*line, separators);
    }
    trials::<false>(*line, separators)
}
