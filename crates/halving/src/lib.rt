// Halving the row ("recursive bisection", scope, section 16) over prefix sums.
// All functions here are inner: their callers have tested the job and its row.
#![tactic(auto)]

ghost use Rattle.std.specs.Prelude.{suc, ◌^◌, ◌≤◌, ◌<◌, ◌≡◌, ◌++◌, length, drop};
ghost use Rattle.chain.specs.Lists.{levels};
ghost use Rattle.chain.specs.Job.{processors};
ghost use Rattle.chain.specs.Halving.{Halvable, splits_by, halving};
ghost use Rattle.parts.specs.Lent.{the};
ghost use Rattle.parts.specs.Rising.{Rising};
ghost use Rattle.halving.specs.Row.{split_in};

use heuristic::nearest_in;
use parts::{Line, last_at_most};

// Inner. The smallest index from a to b at which the weight on the left is nearest to half the part's: its prefix sum,
// doubled, to those at a and at b together.
fn split_in(sums: &[u32], a: usize, b: usize) -> usize
    requires rising { Rising sums.now b }
    requires a_le_b { a ≤ b }
    ensures { result ≡ split_in sums.now a b }
{
    let target = u64::from(sums[a]) + u64::from(sums[b]);
    let past = last_at_most(sums, a, b, (target / 2) as u32) + 1;
    nearest_in(sums, a, b, past, 2, target)
}

// Inner. Splits the part from a to b among the processors of a row, and each half likewise: it writes the separators
// between them.
fn split_row(sums: &[u32], between: &mut [u32], a: usize, b: usize)
    requires rising { Rising sums.now b }
    requires part { (a ≤ b) × (b < 2 ^ 32) }
    requires power { let count = suc (length between.old) in 2 ^ levels count ≡ count }
    ensures { between.new ≡ splits_by (split_in sums.now) (levels (suc (length between.old))) a b }
{
    if !between.is_empty() {
        let middle = between.len() / 2;
        let i = split_in(sums, a, b);
        between[middle] = i as u32;
        split_row(sums, &mut between[..middle], a, i);
        split_row(sums, &mut between[middle + 1..], i, b);
    }
}

// Inner. Writes the separators of the halved row to the front of the list.
pub fn halving_in(line: Line, separators: &mut [u32])
    requires halvable { Halvable line.job.speeds.now }
    requires room { processors (the line.job) < length separators.old }
    ensures { let job = the line.entry.job in
        separators.new ≡ halving job ++ drop (suc (processors job)) separators.old }
{
    let count = line.job.speeds.len();
    let n = line.job.weights.len();
    separators[0] = 0;
    separators[count] = n as u32;
    split_row(line.sums, &mut separators[1..count], 0, n);
}
