// Prefix sums of the weights, and what is read off them: loads and bounds of parts, the bottleneck of a partition, and
// the last index whose sum is at most a cap. All functions here are inner: their callers have tested the job.
#![tactic(auto)]

ghost use Rattle.std.specs.Prelude.{suc, ◌+◌, ◌≤◌, ◌<◌, ◌^◌, ◌≡◌, ◌++◌, length, get_or, take, drop};
ghost use Rattle.bound.specs.Order.{over};
ghost use Rattle.chain.specs.Lists.{sum};
ghost use Rattle.chain.specs.Ranges.{Narrow};
ghost use Rattle.chain.specs.Job as counts;
ghost use Rattle.chain.specs.Job.{processors, hold_of, keeps, slowest_of, ideal, Partition, bound_at, bottleneck};
ghost use Rattle.parts.specs.Prefix.{Prefix, prefixes, weight_between, load_between, Loadable};
ghost use Rattle.parts.specs.Rising.{Rising, near, Spanned, LastAtMost};
ghost use Rattle.parts.specs.Lent.{the};

use bound::Bound;

mod job;
mod line;

pub use job::{JobLists, ValidJob};
pub use line::Line;

// What a method ends with: the bottleneck found, and the count of its moves or trials.
#[derive(Clone, Copy)]
pub struct Found {
    pub bound: Bound,
    pub count: u32,
}

// Inner. The sum of a list.
pub fn total(values: &[u32]) -> u64
    requires { sum values.now < 2 ^ 64 }
    ensures { result ≡ sum values.now }
{
    let mut sum = 0u64;
    for value in values {
        sum += u64::from(*value);
    }
    sum
}

// Inner. The least of a list that is not empty.
pub fn slowest_of(speeds: &[u32]) -> u32
    requires { 0 < length speeds.now }
    ensures { result ≡ slowest_of speeds.now }
{
    let mut least = speeds[0];
    for speed in &speeds[1..] {
        least = least.min(*speed);
    }
    least
}

// Inner. Copies the first n entries of a list to the front of another.
pub fn copy_front(from: &[u32], n: usize, to: &mut [u32])
    requires { (n ≤ length from.now) × (n ≤ length to.old) }
    ensures { to.new ≡ take n from.now ++ drop n to.old }
{
    to[..n].copy_from_slice(&from[..n]);
}

// Inner. Writes W(1,0) to W(1,N) to the front of the list.
pub fn prefix_sums(weights: &[u32], sums: &mut [u32])
    requires weights_bound { sum weights.now < 2 ^ 32 }
    requires weights_in_bounds { length weights.now < length sums.old }
    ensures { let ws = weights.now in
        sums.new ≡ prefixes ws ++ drop (suc (length ws)) sums.old }
{
    let mut sum = 0u32;
    sums[0] = 0;
    for (i, weight) in weights.iter().enumerate() {
        sum += *weight;
        sums[i + 1] = sum;
    }
}

// Inner. The weight of the part from a to b.
pub fn part_weight(sums: &[u32], a: usize, b: usize) -> u32
    requires rising { Rising sums.now b }
    requires a_le_b { a ≤ b }
    ensures { result ≡ weight_between sums.now a b }
{
    sums[b] - sums[a]
}

// Inner. The load of the part from a to b: its weight and, where it has tasks, the start-up work.
pub fn part_load(startup: u32, sums: &[u32], a: usize, b: usize) -> u32
    requires loadable { Loadable startup sums.now b }
    requires a_le_b { a ≤ b }
    ensures { result ≡ load_between startup sums.now a b }
{
    let weight = part_weight(sums, a, b);
    if a < b { startup + weight } else { weight }
}

// Inner. The bound of the part from a to b on a processor of this speed.
pub fn part_bound(startup: u32, speed: u32, sums: &[u32], a: usize, b: usize) -> Bound
    requires loadable { Loadable startup sums.now b }
    requires a_le_b { a ≤ b }
    ensures { result ≡ over (load_between startup sums.now a b) speed }
{
    Bound {
        load: u64::from(part_load(startup, sums, a, b)),
        speed: u64::from(speed),
    }
}

// Inner. The same with the start-up work whether the part has tasks or not.
pub fn started_bound(startup: u32, speed: u32, sums: &[u32], a: usize, b: usize) -> Bound
    requires loadable { Loadable startup sums.now b }
    requires a_le_b { a ≤ b }
    ensures value { result ≡ over (startup + weight_between sums.now a b) speed }
    ensures narrow { Narrow result }
{
    Bound {
        load: u64::from(startup + part_weight(sums, a, b)),
        speed: u64::from(speed),
    }
}

impl<'a> Line<'a> {
    // Inner. The line of a job whose prefix sums are these.
    pub fn new(job: ValidJob<'a>, sums: &'a [u32]) -> Line<'a>
        requires { Prefix (the job) sums.now }
        ensures { (result.job ≡ job.entry) × (result.sums.now ≡ sums.now) }
    {
        Line {
            job,
            sums,
            held: any_hold(job),
        }
    }
}

// Inner. The ideal, all weight over all speed.
pub fn ideal_of(line: Line) -> Bound
    ensures { result ≡ ideal (the line.entry.job) }
{
    Bound {
        load: u64::from(line.sums[line.job.weights.len()]),
        speed: total(line.job.speeds),
    }
}

// Inner. The hold of processor p, 0 for no limit.
pub fn hold_of(job: ValidJob, p: usize) -> usize
    requires { p < processors (the job) }
    ensures value { result ≡ hold_of (the job.entry) p }
    ensures upper_bound { result < 2 ^ 16 }
{
    usize::from(job.holds[p])
}

// Inner. Whether the part from a to b keeps the hold of processor p.
pub fn keeps_hold(job: ValidJob, p: usize, a: usize, b: usize) -> bool
    requires { (p < processors (the job)) × (a ≤ b) }
    ensures { result ≡ keeps (the job.entry) p a b }
{
    let hold = hold_of(job, p);
    hold == 0 || b - a <= hold
}

// Inner. Whether some hold is set. It reads them all, so that several are looked at at once.
pub fn any_hold(job: ValidJob) -> bool
    ensures { result ≡ counts.held (the job.entry) }
{
    let mut any = false;
    for hold in &job.holds[..job.speeds.len()] {
        any |= *hold != 0;
    }
    any
}

// Inner. The same job where its start-up work is 0: code that is compiled for it knows so.
pub fn unstarted(job: ValidJob) -> ValidJob
    requires { job.startup ≡ 0 }
    ensures { (the result ≡ the job.entry) × (result.second ≡ job.entry.second) }
{
    ValidJob {
        second: job.second,
        startup: 0,
        speeds: job.speeds,
        holds: job.holds,
        weights: job.weights,
    }
}

// Inner. The bound of processor p's part.
fn bound_at(line: Line, separators: &[u32], p: usize) -> Bound
    requires partition { let job = the line.job in Partition job (take (suc (processors job)) separators.now) }
    requires processor { p < processors (the line.job) }
    ensures { result ≡ bound_at (the line.entry.job) separators.now p }
{
    let a = separators[p] as usize;
    let b = separators[p + 1] as usize;
    part_bound(line.job.startup, line.job.speeds[p], line.sums, a, b)
}

// Inner. The bottleneck of the partition in front of the list.
pub fn measure_parts(line: Line, separators: &[u32]) -> Bound
    requires partition { let job = the line.job in Partition job (take (suc (processors job)) separators.now) }
    ensures value { result ≡ bottleneck (the line.entry.job) separators.now }
    ensures of_front { let job = the line.entry.job in
        result ≡ bottleneck job (take (suc (processors job)) separators.now) }
{
    let mut greatest = bound_at(line, separators, 0);
    for p in 1..line.job.speeds.len() {
        greatest = greatest.greater(bound_at(line, separators, p));
    }
    greatest
}

// Inner. The same. Without start-up work the loop is compiled for 0.
pub fn measure_in(line: Line, separators: &[u32]) -> Bound
    requires partition { let job = the line.job in Partition job (take (suc (processors job)) separators.now) }
    ensures value { result ≡ bottleneck (the line.entry.job) separators.now }
    ensures of_front { let job = the line.entry.job in
        result ≡ bottleneck job (take (suc (processors job)) separators.now) }
{
    if line.job.startup == 0 {
        let job = unstarted(line.job);
        let sums = line.sums;
        let held = line.held;
        return measure_parts(Line { job, sums, held }, separators);
    }
    measure_parts(line, separators)
}

// The search takes steps of this many entries, twice as many, and so on; it ends by counting the last fewer than so
// many.
const NEAR: usize = 8;

// An index whose entry is at most a cap, and a step: the entry a step on is above the cap, or past the last.
#[derive(Clone, Copy)]
pub struct Span {
    pub low: usize,
    pub step: usize,
}

// Inner. From a on in steps of 8, 16, 32, .. to before the first entry seen above the cap. No range has steps that double,
// so this is a `while`, as is what halves them.
pub fn gallop(xs: &[u32], a: usize, n: usize, cap: u32) -> Span
    requires { (a ≤ n) × (n < length xs.now) × (get_or xs.now a 0 ≤ cap) }
    ensures { Spanned xs.now a n cap result.low result.step }
{
    let mut low = a;
    let mut step = NEAR;
    while step <= n - low {
        if cap < xs[low + step] {
            return Span { low, step };
        }
        low += step;
        step += step;
    }
    Span { low, step }
}

// Inner. The same with the least step, by halving the step.
pub fn halve(xs: &[u32], span: Span, n: usize, cap: u32) -> usize
    requires rising { Rising xs.now n }
    requires spanned { Spanned xs.now span.low n cap span.low span.step }
    ensures { Spanned xs.now span.low n cap result near }
{
    let mut low = span.low;
    let mut step = span.step;
    while NEAR < step {
        step -= step / 2;
        if step <= n - low && xs[low + step] <= cap {
            low += step;
        }
    }
    low
}

// Inner. The last entry at most the cap among low and so many more. It is counted to, so that the compiled code has no
// branch on an entry.
pub fn last_counted(xs: &[u32], low: usize, more: usize, cap: u32) -> usize
    requires rising { Rising xs.now (low + more) }
    requires low_bound { get_or xs.now low 0 ≤ cap }
    ensures { LastAtMost xs.now low (low + more) cap result }
{
    let mut last = low;
    for x in &xs[low + 1..low + more + 1] {
        if *x <= cap {
            last += 1;
        }
    }
    last
}

// Inner. The last entry at most the cap, where it is near.
pub fn last_near(xs: &[u32], low: usize, n: usize, cap: u32) -> usize
    requires rising { Rising xs.now n }
    requires spanned { Spanned xs.now low n cap low near }
    ensures { LastAtMost xs.now low n cap result }
{
    if NEAR <= n - low {
        return last_counted(xs, low, NEAR - 1, cap);
    }
    last_counted(xs, low, n - low, cap)
}

// Inner. The last entry at most the cap from a to n, by galloping, halving and counting.
pub fn last_far(xs: &[u32], a: usize, n: usize, cap: u32) -> usize
    requires rising { Rising xs.now n }
    requires a_le_n { (a ≤ n) × (get_or xs.now a 0 ≤ cap) }
    ensures { LastAtMost xs.now a n cap result }
{
    let span = gallop(xs, a, n, cap);
    let low = halve(xs, span, n, cap);
    last_near(xs, low, n, cap)
}

// Inner. The last entry at most the cap from a to n, where a is before n. Often it is a itself: one look tells.
pub fn last_ahead(xs: &[u32], a: usize, n: usize, cap: u32) -> usize
    requires rising { Rising xs.now n }
    requires a_lt_n { (a < n) × (get_or xs.now a 0 ≤ cap) }
    ensures { LastAtMost xs.now a n cap result }
{
    if xs[a + 1] <= cap {
        return last_far(xs, a + 1, n, cap);
    }
    a
}

// Inner. The last entry at most the cap from a to n. It takes time in the logarithm of its distance from a.
pub fn last_at_most(xs: &[u32], a: usize, n: usize, cap: u32) -> usize
    requires rising { Rising xs.now n }
    requires a_le_n { (a ≤ n) × (get_or xs.now a 0 ≤ cap) }
    ensures { LastAtMost xs.now a n cap result }
{
    if a < n {
        return last_ahead(xs, a, n, cap);
    }
    a
}
