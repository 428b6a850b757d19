// The callable functions on a job by lists: measuring, the probe ("trial"), the heuristic ("quick plan") and halving
// the row. These four have no `requires`: their tests are inside, and nothing lent is written before the last test
// has passed.
#![tactic(auto)]

ghost use Rattle.std.specs.Prelude.{◌≡◌};
ghost use Rattle.parts.specs.Lent.{lent};
ghost use Rattle.calls.specs.Answers.{measure_answer, probe_answer, probe_writes};
ghost use Rattle.calls.specs.Answers.{heuristic_answer, heuristic_writes, halving_answer, halving_writes};

use bound::Bound;
use chain::{Outcome, Refusal};
use halving::halving_in;
use heuristic::heuristic_in;
use parts::{JobLists, Line, measure_in, prefix_sums};
use probe::walked_in;
use refusals::{MAX_TASKS, test_halving, test_heuristic, test_measure, test_probe};

// Measures a partition: its bottleneck, or the refusal: 16, 5, 6, 7, 8, 9 or 11, in this order. Entries past P + 1
// are ignored.
pub fn measure(lists: JobLists, separators: &[u32]) -> Result<Bound, Refusal>
    ensures { result ≡ measure_answer (lent lists.entry) separators.now }
{
    let job = test_measure(lists, separators)?;
    let mut sums = [0u32; MAX_TASKS + 1];
    prefix_sums(job.weights, &mut sums);
    Ok(measure_in(Line::new(job, &sums), separators))
}

// The probe at a lent bound: it fits, with the number of processors that its walk came to, or fails, with the least
// next bid; or the refusal: 16, 5, 6, 7, 8, 9, 17 or 10, in this order. It writes the P + 1 separators, whether it
// fits or fails; a refusal writes nothing. Later entries stay.
pub fn probe(lists: JobLists, bound: Bound, separators: &mut [u32]) -> Result<Outcome, Refusal>
    ensures answer { result ≡ probe_answer (lent lists.entry) bound separators.old }
    ensures separators { separators.new ≡ probe_writes (lent lists.entry) bound separators.old }
{
    let job = test_probe(lists, bound, separators.len())?;
    let mut sums = [0u32; MAX_TASKS + 1];
    prefix_sums(job.weights, &mut sums);
    Ok(walked_in(Line::new(job, &sums), bound, separators))
}

// The heuristic: its bottleneck, or the refusal: 16, 5, 6, 7, 8, 9 or 18, in this order. It writes the P + 1
// separators, a refusal writes nothing. Later entries stay.
pub fn heuristic(lists: JobLists, separators: &mut [u32]) -> Result<Bound, Refusal>
    ensures answer { result ≡ heuristic_answer (lent lists.entry) separators.old }
    ensures separators { separators.new ≡ heuristic_writes (lent lists.entry) separators.old }
{
    let job = test_heuristic(lists, separators.len())?;
    let mut sums = [0u32; MAX_TASKS + 1];
    prefix_sums(job.weights, &mut sums);
    let line = Line::new(job, &sums);
    heuristic_in(line, separators);
    Ok(measure_in(line, separators))
}

// Halving the row: its bottleneck, or the refusal: 16, 5, 6, 7, 8, 14, 9 or 18, in this order. It writes the P + 1
// separators, a refusal writes nothing. Later entries stay. Its tests and its division are others than the heuristic's:
// one function that takes both, and what each ensures, would be no plainer.
pub fn halving(lists: JobLists, separators: &mut [u32]) -> Result<Bound, Refusal>
    ensures answer { result ≡ halving_answer (lent lists.entry) separators.old }
    ensures separators { separators.new ≡ halving_writes (lent lists.entry) separators.old }
{
    let job = test_halving(lists, separators.len())?;
    let mut sums = [0u32; MAX_TASKS + 1];
    prefix_sums(job.weights, &mut sums);
    let line = Line::new(job, &sums);
    halving_in(line, separators);
    Ok(measure_in(line, separators))
}
