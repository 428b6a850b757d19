// Grading: a plan file of any maker is read beside its job and called best or valid.
#![tactic(auto)]

ghost use Rattle.std.specs.Prelude.{suc, ◌*◌, ◌≤◌, ◌<◌, ◌≡◌, ◌++◌, length, take, drop};
ghost use Rattle.chain.specs.Numbers.{refused};
ghost use Rattle.chain.specs.Job.{processors, Partition};
ghost use Rattle.chain.specs.Refusal.{separators_of, joined};
ghost use Rattle.refusals.specs.Inputs.{plan_needed, plan_record_size};
ghost use Rattle.parts.specs.Lent.{the, lent};
ghost use Rattle.planfile.specs.PlanFile.{plan_read};
ghost use Rattle.grading.specs.Inner.{record_at, tells_at, tells, told_grade};
ghost use Rattle.grading.specs.Answers.{grade_of, plan_grade, grade_answer};
ghost use Rattle.grading.specs.Files.{lent_grade, host_grade, host_grades};

use bisection::bisection_in;
use chain::Refusal;
use fields::{FIELD, get_field};
use jobs::read_job;
use parts::{JobLists, Line, ValidJob, measure_in, part_load, prefix_sums};
use refusals::{MAX_PROCESSORS, MAX_TASKS, PLAN_RECORD, is_partition, test_all_lists, test_length};

mod grades;

pub use grades::Grade;

// The bytes of a grade.
const GRADE: usize = 1;

// A record of a plan file: where a processor's part begins and ends, its load and the speed.
#[derive(Clone, Copy)]
struct PlanRecord {
    from: u32,
    to: u32,
    load: u32,
    speed: u32,
}

// Inner. The record of processor p.
fn record_at(plan: &[u8], p: usize) -> PlanRecord
    requires { plan_record_size * suc p ≤ length plan.now }
    ensures { result ≡ record_at plan.now p }
{
    let place = PLAN_RECORD * p;
    PlanRecord {
        from: get_field(plan, place),
        to: get_field(plan, place + FIELD),
        load: get_field(plan, place + 2 * FIELD),
        speed: get_field(plan, place + 3 * FIELD),
    }
}

// Inner. Takes the separators of the plan file to the front of the list, and answers whether each record begins where
// the one before ends.
fn take_separators(job: ValidJob, plan: &[u8], separators: &mut [u32]) -> bool
    requires records { plan_needed (the job) ≤ length plan.now }
    requires room { processors (the job) < length separators.old }
    ensures joined { let job = the job.entry in result ≡ joined job (plan_read job plan.now) }
    ensures separators { let job = the job.entry in
        separators.new ≡ separators_of job (plan_read job plan.now) ++ drop (suc (processors job)) separators.old }
{
    separators[0] = record_at(plan, 0).from;
    let mut joined = true;
    for p in 0..job.speeds.len() {
        let record = record_at(plan, p);
        joined &= record.from == separators[p];
        separators[p + 1] = record.to;
    }
    joined
}

// Inner. Whether the record of processor p has the load of its part and its speed.
fn tells_at(line: Line, separators: &[u32], plan: &[u8], p: usize) -> bool
    requires partition { let job = the line.job in Partition job (take (suc (processors job)) separators.now) }
    requires records { plan_needed (the line.job) ≤ length plan.now }
    requires processor { p < processors (the line.job) }
    ensures { result ≡ tells_at (the line.entry.job) separators.now plan.now p }
{
    let a = separators[p] as usize;
    let b = separators[p + 1] as usize;
    let load = part_load(line.job.startup, line.sums, a, b);
    let record = record_at(plan, p);
    record.load == load && record.speed == line.job.speeds[p]
}

// Inner. Whether every record has the load of its part and its speed.
fn tells_all(line: Line, separators: &[u32], plan: &[u8]) -> bool
    requires partition { let job = the line.job in Partition job (take (suc (processors job)) separators.now) }
    requires records { plan_needed (the line.job) ≤ length plan.now }
    ensures { result ≡ tells (the line.entry.job) separators.now plan.now }
{
    (0..line.job.speeds.len()).all(|p| tells_at(line, separators, plan, p))
}

// Inner. The grade of a partition: it is measured, and its bottleneck held against the one that bisection finds.
fn grade_partition(line: Line, separators: &mut [u32]) -> Grade
    requires { let job = the line.job in Partition job (take (suc (processors job)) separators.old) }
    ensures { let job = the line.entry.job in result ≡ grade_of job (take (suc (processors job)) separators.old) }
{
    let measured = measure_in(line, separators);
    let found = bisection_in(&line, separators);
    if measured.at_most(found.bound) {
        Grade::Best
    } else {
        Grade::Valid
    }
}

// Inner. The grade of the separators that were taken from the plan file, or 13.
fn grade_told(job: &ValidJob, plan: &[u8], separators: &mut [u32]) -> Result<Grade, Refusal>
    requires partition { Partition (the job.now) (take (suc (processors (the job.now))) separators.old) }
    requires records { plan_needed (the job.now) ≤ length plan.now }
    ensures { result ≡ told_grade (the job.now) separators.old plan.now }
{
    let mut sums = [0u32; MAX_TASKS + 1];
    prefix_sums(job.weights, &mut sums);
    let line = Line::new(*job, &sums);
    if !tells_all(line, separators, plan) {
        return Err(Refusal::UntruePlan);
    }
    Ok(grade_partition(line, separators))
}

// Inner. Grades the plan file of a job that has been tested: the grade, or the refusal: 12, 11 or 13, in this order.
fn grade_in(job: &ValidJob, plan: &[u8]) -> Result<Grade, Refusal>
    ensures { result ≡ plan_grade (the job.now) plan.now }
{
    if plan.len() != PLAN_RECORD * job.speeds.len() {
        return Err(Refusal::PlanLength);
    }
    let mut separators = [0u32; MAX_PROCESSORS + 1];
    if !take_separators(*job, plan, &mut separators) || !is_partition(*job, &separators) {
        return Err(Refusal::NoPartition);
    }
    grade_told(job, plan, &mut separators)
}

// Grades a plan file beside the lists of its job: best, valid, or the refusal: 16, 5, 6, 7, 8, 9, 12, 11 or 13, in this
// order.
pub fn grade(lists: JobLists, plan: &[u8]) -> Result<Grade, Refusal>
    ensures { result ≡ grade_answer (lent lists.entry) plan.now }
{
    let job = test_all_lists(lists)?;
    grade_in(&job, plan)
}

// Inner. Grades a plan file beside its job file, so many bytes being lent for the grade: best, valid, or the refusal:
// 2 to 8, 15 and 16 on the job file, then 9, 12, 11 or 13, in this order.
pub fn grade_files(job: &[u8], plan: &[u8], lent: usize) -> Result<Grade, Refusal>
    ensures { result ≡ lent_grade job.now plan.now lent }
{
    let mut speeds = [0u32; MAX_PROCESSORS];
    let mut holds = [0u16; MAX_PROCESSORS];
    let mut weights = [0u32; MAX_TASKS];
    let read = read_job(job, &mut speeds, &mut holds, &mut weights)?;
    test_length(GRADE, lent)?;
    grade_in(&read.job(&speeds, &holds, &weights), plan)
}

// Inner: what the C call does. Puts the grade into the buffer, 1 best, 2 valid, or answers the refusal.
pub fn grade_into(job: &[u8], plan: &[u8], grade: &mut [u8]) -> Result<(), Refusal>
    ensures answer { refused result ≡ host_grade job.now plan.now (length grade.old) }
    ensures bytes { grade.new ≡ host_grades job.now plan.now grade.old }
{
    let found = grade_files(job, plan, grade.len())?;
    grade[0] = found as u8;
    Ok(())
}
