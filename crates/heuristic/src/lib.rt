// The heuristic of Miguet and Pierson ("quick plan", scope, section 4) over prefix sums.
// All functions here are inner: their callers have tested the job.
#![tactic(auto)]

ghost use Rattle.std.specs.Prelude.{suc, ◌-◌, ◌*◌, ◌/◌, ◌^◌, ◌≤◌, ◌<◌, ◌≡◌, ◌++◌, ltb, length, get_or, drop};
ghost use Rattle.chain.specs.Lists.{distance};
ghost use Rattle.chain.specs.Job.{processors};
ghost use Rattle.chain.specs.Heuristic.{heuristic};
ghost use Rattle.parts.specs.Lent.{the};
ghost use Rattle.parts.specs.Rising.{Rising};
ghost use Rattle.heuristic.specs.Target.{first_at_least, FirstAbove, nearest_in, PastAt, PastFrom, Nearer};

use parts::{Line, last_at_most, last_far, total};

// Inner. The first index from i to n whose entry is above the target over the factor, n + 1 if there is none. The one
// before i is not.
fn first_past(sums: &[u32], n: usize, i: usize, factor: u64, target: u64) -> usize
    requires rising { Rising sums.now n }
    requires quotient { (1 ≤ factor) × (target / factor < 2 ^ 32) }
    requires start { (1 ≤ i) × (i ≤ suc n) × (get_or sums.now (i - 1) 0 ≤ target / factor) }
    ensures { FirstAbove sums.now i n (target / factor) result }
{
    last_at_most(sums, i - 1, n, (target / factor) as u32) + 1
}

// Inner. Whether high, past the target, is nearer to it than low, not past it, both times the factor.
fn high_nearer(low: u64, high: u64, factor: u64, target: u64) -> bool
    requires { (low * factor ≤ target) × (target ≤ high * factor) × (high * factor < 2 ^ 64) }
    ensures { result ≡ ltb (distance (high * factor) target) (distance (low * factor) target) }
{
    high * factor - target < target - low * factor
}

// Inner. The smallest index from a to b whose prefix sum is at least the limit, b if there is none. Most often it is b:
// the one before b is looked at first.
fn first_level(sums: &[u32], a: usize, b: usize, limit: u32) -> usize
    requires rising { Rising sums.now b }
    requires a_le_b { a ≤ b }
    ensures { result ≡ first_at_least sums.now a b limit }
{
    if a < b {
        if sums[b - 1] < limit {
            return b;
        }
        if sums[a] < limit {
            return last_far(sums, a, b - 1, limit - 1) + 1;
        }
    }
    a
}

// Inner. The first index past the target or, where that is no nearer, the one before it; which one is added, so that the
// compiled code has no branch on it.
fn nearer_of(sums: &[u32], n: usize, past: usize, factor: u64, target: u64) -> usize
    requires rising { Rising sums.now n }
    requires products { get_or sums.now n 0 * factor < 2 ^ 64 }
    requires past_at { PastAt sums.now factor target n past }
    ensures { Nearer sums.now factor target n past result }
{
    if past <= n {
        let low = u64::from(sums[past - 1]);
        let high = u64::from(sums[past]);
        return past - 1 + usize::from(high_nearer(low, high, factor, target));
    }
    past - 1
}

// Inner. The smallest index from s to n nearest to the target; the first index past the target is known.
pub fn nearest_in(sums: &[u32], s: usize, n: usize, past: usize, factor: u64, target: u64) -> usize
    requires rising { Rising sums.now n }
    requires products { (1 ≤ factor) × (get_or sums.now n 0 * factor < 2 ^ 64) }
    requires past_from { PastFrom sums.now factor target s n past }
    ensures { result ≡ nearest_in sums.now factor target s n }
{
    let i = nearer_of(sums, n, past, factor, target);
    first_level(sums, s, i, sums[i])
}

// Inner. Writes the heuristic's separators to the front of the list.
pub fn heuristic_in(line: Line, separators: &mut [u32])
    requires room { processors (the line.job) < length separators.old }
    ensures { let job = the line.entry.job in
        separators.new ≡ heuristic job ++ drop (suc (processors job)) separators.old }
{
    let n = line.job.weights.len();
    let last = line.job.speeds.len() - 1;
    let all_speed = total(line.job.speeds);
    let weight = u64::from(line.sums[n]);
    let mut speed = 0;
    let mut past = 1;
    let mut s = 0;
    separators[0] = 0;
    for p in 0..last {
        speed += u64::from(line.job.speeds[p]);
        let target = weight * speed;
        past = first_past(line.sums, n, past, all_speed, target);
        s = nearest_in(line.sums, s, n, past, all_speed, target);
        separators[p + 1] = s as u32;
    }
    separators[last + 1] = n as u32;
}
