// Planning by table, bidding, bisection or Nicol's search: every method ends at the least bottleneck, and one walk
// there writes the plan.
#![tactic(auto)]

ghost use Rattle.std.specs.Prelude.{suc, ◌≤◌, ◌<◌, ◌≡◌, ◌++◌, length, drop, None};
ghost use Rattle.chain.specs.Ranges.{Lendable};
ghost use Rattle.chain.specs.Job.{processors, Partition, bottleneck};
ghost use Rattle.chain.specs.Plan.{MethodEnds, plan_of, count_by};
ghost use Rattle.chain.specs.Probe.{walk};
ghost use Rattle.refusals.specs.Inputs.{scratch_needed};
ghost use Rattle.parts.specs.Kept.{KeptFrom};
ghost use Rattle.parts.specs.Lent.{the, edition, lent, lent_edition};
ghost use Rattle.parts.specs.Prefix.{Prefix};
ghost use Rattle.bisection.specs.Closed.{Closed};
ghost use Rattle.planner.specs.Answers.{Tested, Room, plan_refusal, plan_figures};
ghost use Rattle.planner.specs.Answers.{plan_answer, plan_writes, ScratchAfter};

mod allowance;
mod host;
mod imbalance;

use allowance::allowance_of;
use bidding::bidding_in;
use bisection::{Ended, bisection_ended};
use bound::Bound;
use chain::{Method, Refusal};
use dynamic::table_in;
pub use host::{grade_plan, plan_job};
use imbalance::imbalance_of;
use nicol::nicol_in;
use parts::{Found, JobLists, Line, ValidJob, measure_in, prefix_sums};
use probe::probe_in;
use refusals::{MAX_PROCESSORS, MAX_TASKS, SCRATCH_LISTS, test_method};

// The most separators and work numbers that any plan takes.
pub const SEPARATORS: usize = MAX_PROCESSORS + 1;

pub const SCRATCH: usize = SCRATCH_LISTS * (MAX_TASKS + 1);

// The most prefix sums, all that a method but the table takes.
const SUMS: usize = MAX_TASKS + 1;

// What a plan carries beside its separators.
#[derive(Clone, Copy)]
pub struct Figures {
    pub count: u32,
    pub allowance: u32,
    pub bottleneck: Bound,
    pub imbalance: u64,
}

// Inner. What a method found that leaves no plan.
fn open(found: Found) -> Ended
    ensures { (result.bound ≡ found.bound) × (result.count ≡ found.count) × (result.measured ≡ None) }
{
    let Found { bound, count } = found;
    Ended {
        bound,
        count,
        measured: None,
    }
}

// Inner. Runs the method; the scratch list begins with the prefix sums, and still does when it ends.
fn run_method(method: Method, job: ValidJob, separators: &mut [u32], scratch: &mut [u32]) -> Ended
    requires tested { Tested method (the job) }
    requires sums { Prefix (the job) scratch.old }
    requires separators_room { processors (the job) < length separators.old }
    requires scratch_room { Room method (the job) scratch.old }
    ensures method_ends { MethodEnds method (the job.entry) result.count result.bound }
    ensures lendable { Lendable result.bound }
    ensures separators_kept { KeptFrom (suc (processors (the job.entry))) separators.old separators.new }
    ensures sums { Prefix (the job.entry) scratch.new }
    ensures scratch_kept { KeptFrom (scratch_needed (the job.entry)) scratch.old scratch.new }
    ensures closed { Closed (the job.entry) result.measured separators.new }
{
    match method {
        Method::Table => open(table_in(job, scratch)),
        Method::Bidding => open(bidding_in(&Line::new(job, scratch), separators)),
        Method::Bisection => bisection_ended(&Line::new(job, scratch), separators),
        Method::Nicol => open(nicol_in(Line::new(job, scratch), separators)),
    }
}

// Inner. The closing walk at the bottleneck found, which writes the separators and is not counted, and the plan's
// bottleneck. Where the plan stands in the list already, both are known.
fn close_walk(line: Line, ended: Ended, separators: &mut [u32]) -> Bound
    requires separators_room { processors (the line.job) < length separators.old }
    requires plan_walk { walk (the line.job) ended.bound ≡ plan_of (the line.job) }
    requires partition { Partition (the line.job) (plan_of (the line.job)) }
    requires lendable { Lendable ended.bound }
    requires closed { Closed (the line.job) ended.measured separators.old }
    ensures value { let job = the line.entry.job in result ≡ bottleneck job (plan_of job) }
    ensures separators { let job = the line.entry.job in
        separators.new ≡ plan_of job ++ drop (suc (processors job)) separators.old }
{
    if let Some(bottleneck) = ended.measured {
        return bottleneck;
    }
    probe_in(line, ended.bound, separators);
    measure_in(line, separators)
}

// Inner. Divides a job that has been tested: the method, the closing walk, and with the method's count the plan's
// bottleneck.
fn divide_in(method: Method, job: ValidJob, separators: &mut [u32], scratch: &mut [u32]) -> Found
    requires tested { Tested method (the job) }
    requires separators_room { processors (the job) < length separators.old }
    requires scratch_room { Room method (the job) scratch.old }
    ensures count { result.count ≡ count_by method (the job.entry) }
    ensures bottleneck { let divided = the job.entry in result.bound ≡ bottleneck divided (plan_of divided) }
    ensures separators { let divided = the job.entry in
        separators.new ≡ plan_of divided ++ drop (suc (processors divided)) separators.old }
    ensures scratch_kept { KeptFrom (scratch_needed (the job.entry)) scratch.old scratch.new }
    ensures sums { Prefix (the job.entry) scratch.new }
{
    prefix_sums(job.weights, scratch);
    let ended = run_method(method, job, separators, scratch);
    Found {
        bound: close_walk(Line::new(job, scratch), ended, separators),
        count: ended.count,
    }
}

// Inner. The figures of the plan, whose count and bottleneck are known.
fn figures_of(method: Method, job: ValidJob, sums: &[u32], found: Found) -> Figures
    requires tested { Tested method (the job) }
    requires sums { Prefix (the job) sums.now }
    requires count { found.count ≡ count_by method (the job) }
    requires bottleneck { found.bound ≡ bottleneck (the job) (plan_of (the job)) }
    ensures { result ≡ plan_figures (edition job.entry) method (the job.entry) }
{
    let total = u64::from(sums[job.weights.len()]);
    let allowance = allowance_of(method, job);
    let imbalance = imbalance_of(job, total, found.bound);
    Figures {
        count: found.count,
        allowance,
        bottleneck: found.bound,
        imbalance,
    }
}

// Inner. Plans a job that has been tested. It is inlined, so that `plan` takes no stack for a call of it.
#[inline(always)]
pub fn plan_in(
    method: Method,
    job: ValidJob,
    separators: &mut [u32],
    scratch: &mut [u32],
) -> Figures
    requires tested { Tested method (the job) }
    requires separators_room { processors (the job) < length separators.old }
    requires scratch_room { scratch_needed (the job) ≤ length scratch.old }
    ensures figures { result ≡ plan_figures (edition job.entry) method (the job.entry) }
    ensures separators { let planned = the job.entry in
        separators.new ≡ plan_of planned ++ drop (suc (processors planned)) separators.old }
    ensures scratch_kept { KeptFrom (scratch_needed (the job.entry)) scratch.old scratch.new }
    ensures sums { Prefix (the job.entry) scratch.new }
{
    let found = divide_in(method, job, separators, scratch);
    figures_of(method, job, scratch, found)
}

// Plans a job by the method with this number: the first P + 1 separators become the plan's, or the refusal: 1, 16, 5,
// 6, 7, 8, 9, 17 or 18, in this order.
pub fn plan(
    method: u32,
    lists: JobLists,
    separators: &mut [u32],
    scratch: &mut [u32],
) -> Result<Figures, Refusal>
    ensures answer { let edition = lent_edition lists.entry in
        result ≡ plan_answer edition (lent lists.entry) method separators.old scratch.old }
    ensures separators { separators.new ≡ plan_writes (lent lists.entry) method separators.old scratch.old }
    ensures scratch { let job = lent lists.entry in
        let number = plan_refusal job method (length separators.old) (length scratch.old) in
        ScratchAfter number job scratch.old scratch.new }
{
    let method = Method::try_from(method)?;
    let job = test_method(method, lists, separators.len(), scratch.len())?;
    Ok(plan_in(method, job, separators, scratch))
}
