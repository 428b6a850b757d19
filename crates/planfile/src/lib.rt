// Writing a plan file: one record of 16 bytes a processor.
#![tactic(auto)]

ghost use Rattle.std.specs.Prelude.{suc, ◌+◌, ◌*◌, ◌≤◌, ◌<◌, ◌≡◌, ◌++◌, length, take, drop};
ghost use Rattle.chain.specs.Job.{processors, Partition};
ghost use Rattle.parts.specs.Lent.{the, lent};
ghost use Rattle.refusals.specs.Inputs.{plan_record_size, plan_needed};
ghost use Rattle.planfile.specs.PlanFile.{plan_record, plan_bytes};
ghost use Rattle.planfile.specs.Answers.{write_plan_answer, write_plan_bytes};

use chain::Refusal;
use fields::{FIELD, put_field};
use parts::{JobLists, Line, part_load, prefix_sums};
use refusals::{MAX_TASKS, PLAN_RECORD, test_write_plan};

// Inner. The record of processor p at its place: where its part begins and ends, its load and its speed.
fn put_plan_record(line: Line, separators: &[u32], p: usize, plan: &mut [u8])
    requires partition { let job = the line.job in Partition job (take (suc (processors job)) separators.now) }
    requires processor { p < processors (the line.job) }
    requires room { plan_record_size * p + plan_record_size ≤ length plan.old }
    ensures { let bytes = plan_record (the line.entry.job) separators.now p in
        let place = plan_record_size * p in
        plan.new ≡ take place plan.old ++ bytes ++ drop (place + plan_record_size) plan.old }
{
    let from = separators[p];
    let to = separators[p + 1];
    let load = part_load(line.job.startup, line.sums, from as usize, to as usize);
    let record = [from, to, load, line.job.speeds[p]];
    for (i, field) in record.iter().enumerate() {
        put_field(*field, PLAN_RECORD * p + FIELD * i, plan);
    }
}

// Inner. The records of all processors to the front of the buffer. Later bytes stay.
pub fn put_plan(line: Line, separators: &[u32], plan: &mut [u8])
    requires partition { let job = the line.job in Partition job (take (suc (processors job)) separators.now) }
    requires room { plan_needed (the line.job) ≤ length plan.old }
    ensures { let job = the line.entry.job in
        plan.new ≡ plan_bytes job separators.now ++ drop (plan_needed job) plan.old }
{
    for p in 0..line.job.speeds.len() {
        put_plan_record(line, separators, p, plan);
    }
}

// Writes a plan file: the count of its bytes, or the refusal: 16, 5, 6, 7, 8, 9 or 11, in this order. Later bytes
// stay.
pub fn write_plan(lists: JobLists, separators: &[u32], plan: &mut [u8]) -> Result<usize, Refusal>
    ensures answer { result ≡ write_plan_answer (lent lists.entry) separators.now (length plan.old) }
    ensures bytes { plan.new ≡ write_plan_bytes (lent lists.entry) separators.now plan.old }
{
    let job = test_write_plan(lists, separators, plan.len())?;
    let mut sums = [0u32; MAX_TASKS + 1];
    prefix_sums(job.weights, &mut sums);
    put_plan(Line::new(job, &sums), separators, plan);
    Ok(PLAN_RECORD * job.speeds.len())
}
