// The limits of the code, and the tests of every call by lists.
#![tactic(auto)]

ghost use Rattle.std.specs.Prelude.{ℕ, suc, ◌≤◌, ◌<◌, ◌≡◌, ◌&&◌, [], ◌∷◌, length, take, leb, IfOk};
ghost use Rattle.chain.specs.Limits.{max_processors, max_tasks};
ghost use Rattle.chain.specs.Numbers.{number_of, refused};
ghost use Rattle.chain.specs.Job as counts;
ghost use Rattle.chain.specs.Job.{edition_of, job_of, processors, enough};
ghost use Rattle.chain.specs.Refusal.{test, between, each_between, row_test, length_test, holds_test, enough_test};
ghost use Rattle.chain.specs.Refusal.{free_test, bound_test, is_partition, partition_test};
ghost use Rattle.chain.specs.Refusal.{first_refusal, job_tests, nothing, measure_inputs, halving_inputs, refusal};
ghost use Rattle.parts.specs.Lent.{the, lent, lent_edition, IsLent};
ghost use Rattle.refusals.specs.Inputs.{head_records, list_inputs, probe_inputs, heuristic_inputs, plan_lists};
ghost use Rattle.refusals.specs.Inputs.{method_inputs, write_inputs, write_plan_inputs};

use bound::Bound;
use chain::{Method, Refusal};
use parts::{JobLists, ValidJob, any_hold, keeps_hold};

// The limits of a job.
pub const MAX_TASKS: usize = 2048;

pub const MAX_WEIGHT: u32 = 1_000_000;

pub const MAX_STARTUP: u32 = 1_000_000;

pub const MAX_PROCESSORS: usize = 96;

pub const MAX_SPEED: u32 = 10_000;

// The limits of a lent bound.
pub const MAX_BOUND_LOAD: u64 = 100_000_000_000_000;

pub const MAX_BOUND_SPEED: u64 = 1_000_000_000;

// Planning takes so many lists of N + 1 work numbers: the prefix sums, and two rows of pairs.
pub const SCRATCH_LISTS: usize = 5;

// The bytes of a record of a job file, and of one of a plan file.
pub const RECORD: usize = 8;

pub const PLAN_RECORD: usize = 16;

// Inner. Whether this number is from lo to hi.
fn is_between(lo: u32, hi: u32, value: u32) -> bool
    ensures { result ≡ between lo hi value }
{
    (lo <= value) & (value <= hi)
}

// Inner. Whether all before were and this number is from lo to hi.
pub fn and_between(all: bool, lo: u32, hi: u32, value: u32) -> bool
    ensures { result ≡ (all && between lo hi value) }
{
    all & is_between(lo, hi, value)
}

// Inner. Whether every number of the list is from lo to hi. It reads them all, so that several are tested at once.
fn each_between(lo: u32, hi: u32, values: &[u32]) -> bool
    ensures { result ≡ each_between lo hi values.now }
{
    let mut all = true;
    for value in values {
        all = and_between(all, lo, hi, *value);
    }
    all
}

// Inner. The tests of the two counts: 7 and 8.
pub fn test_counts(processors: usize, tasks: usize) -> Result<(), Refusal>
    ensures { refused result ≡
        first_refusal (test 7 (between 1 max_processors processors) ∷ test 8 (leb tasks max_tasks) ∷ []) }
{
    if processors == 0 || MAX_PROCESSORS < processors {
        return Err(Refusal::ProcessorCount);
    }
    if MAX_TASKS < tasks {
        return Err(Refusal::TaskCount);
    }
    Ok(())
}

// Inner. The start-up work that counts: in the first edition it is 0.
pub fn effective(second: bool, startup: u32) -> u32
    ensures { result ≡ counts.effective second startup }
{
    if second { startup } else { 0 }
}

// Inner. The tests of a job by its start-up work, speeds and weights: 16, 5, 6, 7 and 8, in this order.
pub fn test_lists(lists: JobLists) -> Result<(), Refusal>
    ensures { refused result ≡ first_refusal (job_tests (lent lists.entry)) }
{
    if MAX_STARTUP < effective(lists.second, lists.startup) {
        return Err(Refusal::StartupRange);
    }
    if !each_between(1, MAX_SPEED, lists.speeds) {
        return Err(Refusal::SpeedRange);
    }
    if !each_between(0, MAX_WEIGHT, lists.weights) {
        return Err(Refusal::WeightRange);
    }
    test_counts(lists.speeds.len(), lists.weights.len())
}

// Inner. The test of a lent list's length: 9.
pub fn test_length(needed: usize, given: usize) -> Result<(), Refusal>
    ensures { refused result ≡ first_refusal (length_test needed given ∷ []) }
{
    if given < needed {
        return Err(Refusal::ShortList);
    }
    Ok(())
}

// Inner. The test of the list of holds, one for each processor: 9.
pub fn test_holds(lists: JobLists) -> Result<(), Refusal>
    ensures { refused result ≡ first_refusal (holds_test (lent lists.entry) ∷ []) }
{
    test_length(lists.speeds.len(), lists.holds.len())
}

// Inner. The job of lists that have passed those tests, once there is a hold for each processor: else 9.
fn with_holds(lists: JobLists) -> Result<ValidJob, Refusal>
    requires { first_refusal (job_tests (lent lists)) ≡ 0 }
    ensures number { refused result ≡ first_refusal (holds_test (lent lists.entry) ∷ []) }
    ensures job { IfOk result (λ job. IsLent lists.entry job) }
{
    test_holds(lists)?;
    Ok(ValidJob {
        second: lists.second,
        startup: effective(lists.second, lists.startup),
        speeds: lists.speeds,
        holds: lists.holds,
        weights: lists.weights,
    })
}

// Inner. The job of the lists, or the refusal: 16, 5, 6, 7, 8 or 9, in this order.
pub fn test_all_lists(lists: JobLists) -> Result<ValidJob, Refusal>
    ensures number { refused result ≡ refusal (lent lists.entry) nothing }
    ensures job { IfOk result (λ job. IsLent lists.entry job) }
{
    test_lists(lists)?;
    with_holds(lists)
}

// The test of a job by lists, or the refusal: 16, 5, 6, 7, 8 or 9, in this order.
pub fn test_job(lists: JobLists) -> Result<(), Refusal>
    ensures { refused result ≡ refusal (lent lists.entry) nothing }
{
    test_all_lists(lists)?;
    Ok(())
}

// Inner. Whether the holds are enough: some processor has none, or all together they hold the tasks.
pub fn enough_holds(job: ValidJob) -> bool
    ensures { result ≡ enough (the job.entry) }
{
    let mut sum = 0usize;
    for hold in &job.holds[..job.speeds.len()] {
        if *hold == 0 {
            return true;
        }
        sum += usize::from(*hold);
    }
    job.weights.len() <= sum
}

// Inner. The test of the holds of a job that is to be divided: 17.
pub fn test_enough(job: ValidJob) -> Result<(), Refusal>
    ensures { refused result ≡ first_refusal (enough_test (the job.entry) ∷ []) }
{
    if !enough_holds(job) {
        return Err(Refusal::FewHolds);
    }
    Ok(())
}

// Inner. The test of a call that takes no holds: 18.
pub fn test_free(job: ValidJob) -> Result<(), Refusal>
    ensures { refused result ≡ first_refusal (free_test (the job.entry) ∷ []) }
{
    if any_hold(job) {
        return Err(Refusal::HoldsSet);
    }
    Ok(())
}

// Inner. Whether the first P + 1 separators are a partition of the job.
pub fn is_partition(job: ValidJob, separators: &[u32]) -> bool
    requires { processors (the job) < length separators.now }
    ensures { let tested = the job.entry in
        result ≡ is_partition tested (take (suc (processors tested)) separators.now) }
{
    if separators[0] != 0 {
        return false;
    }
    for p in 0..job.speeds.len() {
        let a = separators[p] as usize;
        let b = separators[p + 1] as usize;
        if b < a || !keeps_hold(job, p, a, b) {
            return false;
        }
    }
    separators[job.speeds.len()] as usize == job.weights.len()
}

// Inner. The test of a row that is to be halved: 14.
fn test_row(speeds: &[u32]) -> Result<(), Refusal>
    requires { 1 ≤ length speeds.now }
    ensures { refused result ≡ first_refusal (row_test speeds.now ∷ []) }
{
    let first = speeds[0];
    if !each_between(first, first, speeds) || !speeds.len().is_power_of_two() {
        return Err(Refusal::UnequalRow);
    }
    Ok(())
}

// Inner. The test of a lent bound: 10.
fn test_bound(bound: Bound) -> Result<(), Refusal>
    ensures { refused result ≡ first_refusal (bound_test bound ∷ []) }
{
    if MAX_BOUND_LOAD < bound.load || bound.speed == 0 || MAX_BOUND_SPEED < bound.speed {
        return Err(Refusal::BoundRange);
    }
    Ok(())
}

// Inner. The test of a division: 11.
fn test_division(job: ValidJob, separators: &[u32]) -> Result<(), Refusal>
    requires { processors (the job) < length separators.now }
    ensures { refused result ≡ first_refusal (partition_test (the job.entry) separators.now ∷ []) }
{
    if !is_partition(job, separators) {
        return Err(Refusal::NoPartition);
    }
    Ok(())
}

// Inner. The job of a call with a list of separators of this length, or the refusal: 16, 5, 6, 7, 8 or 9, in this
// order.
pub fn test_separators(lists: JobLists, separators: usize) -> Result<ValidJob, Refusal>
    ensures number { let job = lent lists.entry in refused result ≡ refusal job (list_inputs job separators) }
    ensures job { IfOk result (λ job. IsLent lists.entry job) }
{
    let job = test_all_lists(lists)?;
    test_length(job.speeds.len() + 1, separators)?;
    Ok(job)
}

// Inner. The job of the heuristic, or the refusal: 16, 5, 6, 7, 8, 9 or 18, in this order.
pub fn test_heuristic(lists: JobLists, separators: usize) -> Result<ValidJob, Refusal>
    ensures number { let job = lent lists.entry in refused result ≡ refusal job (heuristic_inputs job separators) }
    ensures job { IfOk result (λ job. IsLent lists.entry job) }
{
    let job = test_separators(lists, separators)?;
    test_free(job)?;
    Ok(job)
}

// Inner. The job whose row is to be halved, or the refusal: 16, 5, 6, 7, 8, 14, 9 or 18, in this order.
pub fn test_halving(lists: JobLists, separators: usize) -> Result<ValidJob, Refusal>
    ensures number { let job = lent lists.entry in refused result ≡ refusal job (halving_inputs job separators) }
    ensures job { IfOk result (λ job. IsLent lists.entry job) }
{
    test_lists(lists)?;
    test_row(lists.speeds)?;
    let job = with_holds(lists)?;
    test_length(job.speeds.len() + 1, separators)?;
    test_free(job)?;
    Ok(job)
}

// Inner. The job to be measured, or the refusal: 16, 5, 6, 7, 8, 9 or 11, in this order.
pub fn test_measure<'a>(lists: JobLists<'a>, separators: &[u32]) -> Result<ValidJob<'a>, Refusal>
    ensures number { let job = lent lists.entry in refused result ≡ refusal job (measure_inputs job separators.now) }
    ensures job { IfOk result (λ job. IsLent lists.entry job) }
{
    let job = test_separators(lists, separators.len())?;
    test_division(job, separators)?;
    Ok(job)
}

// Inner. The job of a probe, or the refusal: 16, 5, 6, 7, 8, 9, 17 or 10, in this order.
pub fn test_probe(lists: JobLists, bound: Bound, separators: usize) -> Result<ValidJob, Refusal>
    ensures number { let job = lent lists.entry in refused result ≡ refusal job (probe_inputs job bound separators) }
    ensures job { IfOk result (λ job. IsLent lists.entry job) }
{
    let divided = test_separators(lists, separators)?;
    test_enough(divided)?;
    test_bound(bound)?;
    Ok(divided)
}

// Inner. The job to be planned into lists of these lengths, the method apart, or the refusal: 16, 5, 6, 7, 8, 9 or 17,
// in this order.
pub fn test_plan(lists: JobLists, separators: usize, scratch: usize) -> Result<ValidJob, Refusal>
    ensures number { let job = lent lists.entry in refused result ≡ refusal job (plan_lists job separators scratch) }
    ensures job { IfOk result (λ job. IsLent lists.entry job) }
{
    let job = test_separators(lists, separators)?;
    test_length(SCRATCH_LISTS * (job.weights.len() + 1), scratch)?;
    test_enough(job)?;
    Ok(job)
}

// Inner. The same by a method that is known: method 4 takes no holds, refusal 18.
pub fn test_method(
    method: Method,
    lists: JobLists,
    separators: usize,
    scratch: usize,
) -> Result<ValidJob, Refusal>
    ensures number { let job = lent lists.entry in
        refused result ≡ refusal job (method_inputs job (number_of method) separators scratch) }
    ensures job { IfOk result (λ job. IsLent lists.entry job) }
{
    let job = test_plan(lists, separators, scratch)?;
    if method == Method::Nicol {
        test_free(job)?;
    }
    Ok(job)
}

// Inner. How many records of a job file stand before its machines: one in the second edition, whatever its start-up
// work.
pub fn head_records(second: bool) -> usize
    ensures value { (startup : ℕ) → result ≡ head_records (edition_of second startup) }
    ensures upper_bound { result ≤ 1 }
{
    usize::from(second)
}

// Inner. The job to be written into so many bytes, or the refusal: 16, 5, 6, 7, 8 or 9, in this order. The start-up
// work is tested as it is given, in the first edition too.
pub fn test_write_job(lists: JobLists, bytes: usize) -> Result<ValidJob, Refusal>
    ensures number { let given = lists.entry in
        let job = job_of given.startup given.speeds.now given.holds.now given.weights.now in
        refused result ≡ refusal job (write_inputs (lent_edition given) job bytes) }
    ensures job { IfOk result (λ job. IsLent lists.entry job) }
{
    let given = lists.startup;
    if MAX_STARTUP < given {
        return Err(Refusal::StartupRange);
    }
    let job = test_all_lists(lists)?;
    let records = head_records(lists.second) + job.weights.len() + job.speeds.len();
    test_length(RECORD * records, bytes)?;
    Ok(job)
}

// Inner. The job whose plan file is to be written into so many bytes, or the refusal: 16, 5, 6, 7, 8, 9 or 11, in this
// order.
pub fn test_write_plan<'a>(
    lists: JobLists<'a>,
    separators: &[u32],
    bytes: usize,
) -> Result<ValidJob<'a>, Refusal>
    ensures number { let job = lent lists.entry in
        refused result ≡ refusal job (write_plan_inputs job separators.now bytes) }
    ensures job { IfOk result (λ job. IsLent lists.entry job) }
{
    let job = test_separators(lists, separators.len())?;
    test_length(PLAN_RECORD * job.speeds.len(), bytes)?;
    test_division(job, separators)?;
    Ok(job)
}
