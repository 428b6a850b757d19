// The two calls for hosts in C, as they stand in `planner`: planning and grading by file.
#![tactic(auto)]

ghost use Rattle.std.specs.Prelude.{◌≡◌, length};
ghost use Rattle.chain.specs.Numbers.{refused};
ghost use Rattle.grading.specs.Files.{host_grade, host_grades};
ghost use Rattle.planner.specs.HostCall.{host_answer, host_writes};

use chain::Refusal;

// The number of an answer without values: 0, or the refusal's. `answers` has it too, and rests on more than this archive.
fn number_of(done: Result<(), Refusal>) -> u32
    ensures { result ≡ refused done }
{
    match done {
        Ok(()) => 0,
        Err(refusal) => u32::from(refusal),
    }
}

// Plans the job file by the method with this number and writes its plan file: 0, or the refusal: 1, then 2 to 8, 15 and
// 16 on the file, then 9, 17 or, for method 4, 18. In C:
// uint32_t plan_job(const uint8_t *job, size_t job_len, uint32_t method, uint8_t *plan, size_t plan_len).
#[unsafe(no_mangle)]
pub extern "C" fn plan_job(job: &[u8], method: u32, plan: &mut [u8]) -> u32
    ensures answer { result ≡ host_answer job.now method (length plan.old) }
    ensures bytes { plan.new ≡ host_writes job.now method plan.old }
{
    number_of(planner::plan_job(job, method, plan))
}

// Grades the plan file beside its job file, 1 best, 2 valid, in the buffer's first byte: 0, or the refusal: 2 to 8, 15
// and 16 on the job file, then 9, 12, 11 or 13. In C:
// uint32_t grade_plan(const uint8_t *job, size_t job_len, const uint8_t *plan, size_t plan_len,
//                     uint8_t *grade, size_t grade_len).
#[unsafe(no_mangle)]
pub extern "C" fn grade_plan(job: &[u8], plan: &[u8], grade: &mut [u8]) -> u32
    ensures answer { result ≡ host_grade job.now plan.now (length grade.old) }
    ensures bytes { grade.new ≡ host_grades job.now plan.now grade.old }
{
    number_of(planner::grade_plan(job, plan, grade))
}
