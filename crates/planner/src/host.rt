// The calls for hosts in C.
ghost use Rattle.std.specs.Prelude.{◌≤◌, ◌<◌, ◌^◌, ◌≡◌, ◌++◌, length, drop};
ghost use Rattle.chain.specs.declared.Method.TheVariants.{Table};
ghost use Rattle.chain.specs.Numbers.{number_of, refused};
ghost use Rattle.chain.specs.Job.{tasks};
ghost use Rattle.chain.specs.Plan.{plan_of};
ghost use Rattle.chain.specs.Refusal.{first_refusal};
ghost use Rattle.refusals.specs.Inputs.{scratch_needed, plan_needed};
ghost use Rattle.parts.specs.Lent.{the};
ghost use Rattle.jobs.specs.Parse.{weights_of, file_refusal};
ghost use Rattle.planfile.specs.PlanFile.{plan_bytes};
ghost use Rattle.grading.specs.Files.{host_grade, host_grades};
ghost use Rattle.planner.specs.Answers.{Tested};
ghost use Rattle.planner.specs.HostCall.{hold_tests, Host, file_answer, file_writes, host_answer, host_writes};

use super::{SCRATCH, SEPARATORS, SUMS, divide_in};
use chain::{Method, Refusal};
use grading::grade_into;
use jobs::read_job;
use parts::{Line, ValidJob};
use planfile::put_plan;
use refusals::{
    MAX_PROCESSORS, MAX_TASKS, PLAN_RECORD, RECORD, test_enough, test_free, test_length,
};

// A job with fewer tasks takes shorter lists of weights and prefix sums.
const FEW: usize = 512;

// Inner. Plans a tested job and writes its plan file to the front of the buffer. N work numbers are enough for the
// method. It is not inlined, so that no call takes the stack of another N.
#[inline(never)]
fn write_with<const N: usize>(method: Method, job: ValidJob, plan: &mut [u8])
    requires tested { Tested method (the job) }
    requires small { N < 2 ^ 32 }
    requires sums_room { tasks (the job) < N }
    requires rows_room { method ≡ Table → scratch_needed (the job) ≤ N }
    requires plan_room { plan_needed (the job) ≤ length plan.old }
    ensures { let planned = the job.entry in
        plan.new ≡ plan_bytes planned (plan_of planned) ++ drop (plan_needed planned) plan.old }
{
    let mut scratch = [0u32; N];
    let mut separators = [0u32; SEPARATORS];
    divide_in(method, job, &mut separators, &mut scratch);
    put_plan(Line::new(job, &scratch), &separators, plan);
}

// Inner. The same with no more work numbers than the method takes: the table all of them, the others the prefix sums
// alone.
fn write_best(method: Method, job: ValidJob, plan: &mut [u8])
    requires tested { Tested method (the job) }
    requires plan_room { plan_needed (the job) ≤ length plan.old }
    ensures { let planned = the job.entry in
        plan.new ≡ plan_bytes planned (plan_of planned) ++ drop (plan_needed planned) plan.old }
{
    if method == Method::Table {
        write_with::<SCRATCH>(method, job, plan);
    } else if job.weights.len() < FEW {
        write_with::<FEW>(method, job, plan);
    } else {
        write_with::<SUMS>(method, job, plan);
    }
}

// Inner. The tests of the holds of a job that is to be planned by the method: 17 or, for method 4, 18.
fn test_kept(method: Method, job: ValidJob) -> Result<(), Refusal>
    ensures { refused result ≡ first_refusal (hold_tests (number_of method) (the job.entry)) }
{
    test_enough(job)?;
    if method == Method::Nicol {
        test_free(job)?;
    }
    Ok(())
}

// Inner. The tests of the buffer and of the holds, and the plan.
fn plan_read(method: Method, job: ValidJob, plan: &mut [u8]) -> Result<(), Refusal>
    ensures { Host (number_of method) (the job.entry) plan.old plan.new (refused result) }
{
    test_length(PLAN_RECORD * job.speeds.len(), plan.len())?;
    test_kept(method, job)?;
    write_best(method, job, plan);
    Ok(())
}

// Inner. Plans the job file by a method that is known, or the refusal. A list of N takes the file's weights.
fn plan_sized<const N: usize>(method: Method, file: &[u8], plan: &mut [u8]) -> Result<(), Refusal>
    requires small { N < 2 ^ 32 }
    requires weights_room { file_refusal file.now ≡ 0 → length (weights_of file.now) ≤ N }
    ensures answer { refused result ≡ file_answer file.now (number_of method) (length plan.old) }
    ensures bytes { plan.new ≡ file_writes file.now (number_of method) plan.old }
{
    let mut speeds = [0u32; MAX_PROCESSORS];
    let mut holds = [0u16; MAX_PROCESSORS];
    let mut weights = [0u32; N];
    let read = read_job(file, &mut speeds, &mut holds, &mut weights)?;
    plan_read(method, read.job(&speeds, &holds, &weights), plan)
}

// Plans the job file by the method with this number and writes its plan file, or the refusal: 1, then 2 to 8, 15 and
// 16 on the file, then 9, 17 or, for method 4, 18.
pub fn plan_job(job: &[u8], method: u32, plan: &mut [u8]) -> Result<(), Refusal>
    ensures answer { refused result ≡ host_answer job.now method (length plan.old) }
    ensures bytes { plan.new ≡ host_writes job.now method plan.old }
{
    let method = Method::try_from(method)?;
    if job.len() / RECORD <= FEW {
        return plan_sized::<FEW>(method, job, plan); // few records have few weights
    }
    plan_sized::<MAX_TASKS>(method, job, plan)
}

// Grades the plan file beside its job file, 1 best, 2 valid, in the buffer's first byte, or the refusal: 2 to 8, 15
// and 16 on the job file, then 9, 12, 11 or 13.
pub fn grade_plan(job: &[u8], plan: &[u8], grade: &mut [u8]) -> Result<(), Refusal>
    ensures answer { refused result ≡ host_grade job.now plan.now (length grade.old) }
    ensures bytes { grade.new ≡ host_grades job.now plan.now grade.old }
{
    grade_into(job, plan, grade)
}
