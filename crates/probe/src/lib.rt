// The probe at a bound over prefix sums: the end of a part, the walk and the least next bid. All functions here are
// inner: their callers have tested the job and the bound. Where a function is told HELD, it is compiled twice: for
// jobs with holds, and for those without, which ask for none.
#![tactic(auto)]

ghost use Rattle.std.specs.Prelude.{suc, ◌+◌, ◌*◌, ◌/◌, ◌≤◌, ◌<◌, ◌^◌, ◌≡◌, ◌++◌, T, length, get_or, drop};
ghost use Rattle.chain.specs.Ranges.{Lendable, Narrow};
ghost use Rattle.chain.specs.Job as counts;
ghost use Rattle.chain.specs.Job.{tasks, processors, offer};
ghost use Rattle.chain.specs.Probe.{reach, walk, walked, probe};
ghost use Rattle.parts.specs.Lent.{the};
ghost use Rattle.parts.specs.Rising.{Rising, LastAtMost};
ghost use Rattle.probe.specs.Walk.{EndsBy, kept_end, begun, Reached};

use bound::Bound;
use chain::Outcome;
use parts::{Line, hold_of, keeps_hold, last_ahead, part_bound, part_weight, started_bound};

// Inner. Where to look from: the hint, where it is not before a and its entry is at most the cap, else a.
pub fn from_hint(xs: &[u32], a: usize, n: usize, cap: u32, hint: usize) -> usize
    requires rising { Rising xs.now n }
    requires a_lt_n { (a < n) × (get_or xs.now a 0 ≤ cap) }
    ensures { (a ≤ result) × (result < n) × (get_or xs.now result 0 ≤ cap) }
{
    if a <= hint {
        if hint < n {
            if xs[hint] <= cap {
                return hint;
            }
        }
    }
    a
}

// Inner. The last entry at most the cap from a to n, whatever the hint. It takes time in the logarithm of its
// distance from a, and from a hint that is before it in that of its distance from there.
pub fn last_from(xs: &[u32], a: usize, n: usize, cap: u32, hint: usize) -> usize
    requires rising { Rising xs.now n }
    requires a_lt_n { (a < n) × (get_or xs.now a 0 ≤ cap) }
    ensures { LastAtMost xs.now a n cap result }
{
    let start = from_hint(xs, a, n, cap, hint);
    last_ahead(xs, start, n, cap)
}

// Inner. The greatest load within the bound on a processor of this speed.
pub fn most_load(bound: Bound, speed: u32) -> u64
    requires { (bound.load * speed < 2 ^ 64) × (1 ≤ bound.speed) }
    ensures { result ≡ bound.load * speed / bound.speed }
{
    bound.load * u64::from(speed) / bound.speed
}

// Inner. The greatest index from a to N whose part's bound, from a on, is at most the bound on processor p,
// whatever its hold. The hint changes only the time: the end in a walk at a lesser bound is a good one. It is
// inlined, since a call would copy the line for each processor.
#[inline(always)]
pub fn bound_end(line: Line, p: usize, a: usize, bound: Bound, hint: usize) -> usize
    requires lendable { Lendable bound }
    requires place { (p < processors (the line.job)) × (a ≤ tasks (the line.job)) }
    ensures { EndsBy (the line.entry.job) p a bound result }
{
    let n = line.job.weights.len();
    let limit = most_load(bound, line.job.speeds[p]);
    let least = u64::from(line.job.startup);
    if limit < least {
        return a; // not even the start-up work is within the bound
    }
    let room = limit - least;
    if u64::from(part_weight(line.sums, a, n)) <= room {
        return n;
    }
    last_from(line.sums, a, n, line.sums[a] + room as u32, hint)
}

// Inner. Where a part from a on ends that would go to `end`: there, or at the hold, 0 for no limit.
pub fn kept_end(hold: usize, a: usize, end: usize) -> usize
    requires { a ≤ end }
    ensures { result ≡ kept_end hold a end }
{
    if hold != 0 && hold < end - a {
        return a + hold;
    }
    end
}

// Inner. The greatest index from a to N whose part, from a on, is within the bound on processor p: the lesser of
// what the search finds and the hold.
pub fn part_end<const HELD: bool>(
    line: Line,
    p: usize,
    a: usize,
    bound: Bound,
    hint: usize,
) -> usize
    requires lendable { Lendable bound }
    requires place { (p < processors (the line.job)) × (a ≤ tasks (the line.job)) }
    requires held_is { T (counts.held (the line.job)) → T HELD }
    ensures { result ≡ reach (the line.entry.job) p a bound }
{
    let end = bound_end(line, p, a, bound, hint);
    if HELD {
        kept_end(hold_of(line.job, p), a, end)
    } else {
        end
    }
}

// Inner. The bid of processor p: the bound of its part from a to end with one more task, which is there; none, 1/0,
// where the processor is at its hold.
pub fn bid_of<const HELD: bool>(line: Line, p: usize, a: usize, end: usize) -> Bound
    requires place { (p < processors (the line.job)) × (a ≤ end) × (end < tasks (the line.job)) }
    requires held_is { T (counts.held (the line.job)) → T HELD }
    ensures value { result ≡ offer (the line.entry.job) p a (suc end) }
    ensures narrow { Narrow result }
{
    if HELD && !keeps_hold(line.job, p, a, end + 1) {
        return Bound::INFINITE;
    }
    started_bound(line.job.startup, line.job.speeds[p], line.sums, a, end + 1)
}

// Inner. The bound of all that remains from a on, on processor p; none, 1/0, where it does not hold that.
pub fn rest_of<const HELD: bool>(line: Line, p: usize, a: usize) -> Bound
    requires place { (p < processors (the line.job)) × (a ≤ tasks (the line.job)) }
    requires held_is { T (counts.held (the line.job)) → T HELD }
    ensures value { result ≡ offer (the line.entry.job) p a (tasks (the line.entry.job)) }
    ensures narrow { Narrow result }
{
    let n = line.job.weights.len();
    if HELD && !keeps_hold(line.job, p, a, n) {
        return Bound::INFINITE;
    }
    part_bound(line.job.startup, line.job.speeds[p], line.sums, a, n)
}

// Where a walk stands: before the part of a processor, with that part's start and the least bid of the processors
// before it.
#[derive(Clone, Copy)]
pub struct Point {
    pub processor: usize,
    pub start: usize,
    pub least: Bound,
}

impl Point {
    // Inner. Every walk begins here.
    pub const FIRST: Point = Point {
        processor: 0,
        start: 0,
        least: Bound::INFINITE,
    };
}

// Inner. The probe at the bound from a point on that its walk has reached: writes the separators of the processors
// that it comes to, whether it fits or not, and answers. Once every task is placed the walk ends; the separators
// that are left, all N, are not written. What the list holds from the point on is a hint, most often the walk
// before. The line comes by reference, so that a call copies none to the stack.
pub fn walk<const HELD: bool>(
    line: &Line,
    bound: Bound,
    point: Point,
    separators: &mut [u32],
) -> Outcome
    requires lendable { Lendable bound }
    requires room { processors (the line.now.job) < length separators.old }
    requires reached { Reached (the line.now.job) bound separators.old point }
    requires held_is { T (counts.held (the line.now.job)) → T HELD }
    ensures value { result ≡ probe (the line.now.job) bound }
    ensures separators { separators.new ≡ begun (the line.now.job) bound separators.old }
{
    let count = line.job.speeds.len();
    let last = count - 1;
    let n = line.job.weights.len();
    let mut best = point.least;
    let mut a = point.start;
    if n <= a {
        return Outcome::Fits(point.processor);
    }
    for p in point.processor..last {
        let hint = separators[p + 1] as usize;
        separators[p] = a as u32;
        let end = part_end::<HELD>(*line, p, a, bound, hint);
        if n <= end {
            return Outcome::Fits(p + 1);
        }
        best = best.lesser(bid_of::<HELD>(*line, p, a, end));
        a = end;
    }
    separators[last] = a as u32;
    let rest = rest_of::<HELD>(*line, last, a);
    if rest.at_most(bound) {
        return Outcome::Fits(count);
    }
    Outcome::Fails(best.lesser(rest))
}

// Inner. The same, whether a hold is set or not. It is drawn into its callers, as is `probe_in`: a call would copy the
// line to the stack.
#[inline(always)]
pub fn walk_from(line: Line, bound: Bound, point: Point, separators: &mut [u32]) -> Outcome
    requires lendable { Lendable bound }
    requires room { processors (the line.job) < length separators.old }
    requires reached { Reached (the line.job) bound separators.old point }
    ensures value { result ≡ probe (the line.entry.job) bound }
    ensures separators { separators.new ≡ begun (the line.entry.job) bound separators.old }
{
    if line.held {
        return walk::<true>(&line, bound, point, separators);
    }
    walk::<false>(&line, bound, point, separators)
}

// Inner. The probe at the bound: writes the walk's P + 1 separators, whether it fits or not, and answers.
#[inline(always)]
pub fn probe_in(line: Line, bound: Bound, separators: &mut [u32]) -> Outcome
    requires lendable { Lendable bound }
    requires room { processors (the line.job) < length separators.old }
    ensures value { result ≡ probe (the line.entry.job) bound }
    ensures separators { let job = the line.entry.job in
        separators.new ≡ walk job bound ++ drop (suc (processors job)) separators.old }
{
    let count = line.job.speeds.len();
    let n = line.job.weights.len() as u32;
    let answer = walk_from(line, bound, Point::FIRST, separators);
    match answer {
        Outcome::Fits(visited) => separators[visited..count + 1].fill(n),
        Outcome::Fails(_) => separators[count] = n,
    }
    answer
}

// Inner. The same probe, which writes how far each processor gets: where it fits that is the walk, where it fails
// the last entry is how far the last processor reaches.
pub fn walked_in(line: Line, bound: Bound, separators: &mut [u32]) -> Outcome
    requires lendable { Lendable bound }
    requires room { processors (the line.job) < length separators.old }
    ensures value { result ≡ probe (the line.entry.job) bound }
    ensures separators { let job = the line.entry.job in
        separators.new ≡ walked job bound ++ drop (suc (processors job)) separators.old }
{
    let answer = probe_in(line, bound, separators);
    if let Outcome::Fails(_) = answer {
        let last = line.job.speeds.len() - 1;
        let a = separators[last] as usize;
        let end = if line.held {
            part_end::<true>(line, last, a, bound, a)
        } else {
            part_end::<false>(line, last, a, bound, a)
        };
        separators[last + 1] = end as u32;
    }
    answer
}
