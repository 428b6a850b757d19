// What every C function of the library does. Each gives 0 or the refusal's number; what the call says goes into the lent
// `answer`, one number an entry: those past its end are dropped, and a refusal leaves it as it was. All functions here are
// inner: the crates that export to C call them.
#![tactic(auto)]

ghost use Rattle.std.specs.Prelude.{◌≡◌, [], ◌∷◌};
ghost use Rattle.chain.specs.Numbers.{refused};
ghost use Rattle.demands.specs.Call.{TestJob, ReadJob, WriteJob, Measure, Probe, Heuristic, Halving, Plan, WritePlan};
ghost use Rattle.demands.specs.Call.{Grade, ListJob, PlanJob, GradePlan, by_lists, Leaves};
ghost use Rattle.demands.specs.Demands.{number};
ghost use Rattle.answers.specs.Answer.{lists_by, Answers};

use bound::Bound;
use chain::Refusal;
use parts::JobLists;
use say::put_answer;

mod say;

// The number of an answer without values.
fn number_of(done: Result<(), Refusal>) -> u32
    ensures { result ≡ refused done }
{
    match done {
        Ok(()) => 0,
        Err(refusal) => u32::from(refusal),
    }
}

// The job of the lists that C passes.
pub fn lists_of<'a>(
    second: bool,
    startup: u32,
    speeds: &'a [u32],
    holds: &'a [u16],
    weights: &'a [u32],
) -> JobLists<'a>
    ensures { lists_by result ≡ by_lists second startup speeds.now holds.now weights.now }
{
    JobLists {
        second,
        startup,
        speeds,
        holds,
        weights,
    }
}

// There is no answer but the number.
pub fn test_job(lists: JobLists) -> u32
    ensures { let call = TestJob (lists_by lists.entry) in result ≡ number call }
{
    number_of(refusals::test_job(lists))
}

// The answer: the edition, c, P, N.
pub fn read_job(
    file: &[u8],
    speeds: &mut [u32],
    holds: &mut [u16],
    weights: &mut [u32],
    answer: &mut [u64],
) -> u32
    ensures { let call = ReadJob file.now speeds.old holds.old weights.old in
        Answers call result (speeds.new ∷ holds.new ∷ weights.new ∷ []) answer.old answer.new }
{
    put_answer(answer, jobs::read_job(file, speeds, holds, weights))
}

// The answer: the bytes written.
pub fn write_job(lists: JobLists, file: &mut [u8], answer: &mut [u64]) -> u32
    ensures { let call = WriteJob (lists_by lists.entry) file.old in
        Answers call result (file.new ∷ []) answer.old answer.new }
{
    put_answer(answer, jobs::write_job(lists, file))
}

// The answer: the bytes of the listing.
pub fn list_job(file: &[u8], text: &mut [u8], answer: &mut [u64]) -> u32
    ensures { let call = ListJob file.now text.old in
        Answers call result (text.new ∷ []) answer.old answer.new }
{
    put_answer(answer, listing::list(file, text))
}

// The answer: the bottleneck's load, speed.
pub fn measure(lists: JobLists, separators: &[u32], answer: &mut [u64]) -> u32
    ensures { let call = Measure (lists_by lists.entry) separators.now in
        Answers call result [] answer.old answer.new }
{
    put_answer(answer, calls::measure(lists, separators))
}

// The answer: 1 and the machines that the walk came to; or 0 and the next bid's load, speed.
pub fn probe(lists: JobLists, bound: Bound, separators: &mut [u32], answer: &mut [u64]) -> u32
    ensures { let call = Probe (lists_by lists.entry) bound separators.old in
        Answers call result (separators.new ∷ []) answer.old answer.new }
{
    put_answer(answer, calls::probe(lists, bound, separators))
}

// The answer: the bottleneck's load, speed.
pub fn heuristic(lists: JobLists, separators: &mut [u32], answer: &mut [u64]) -> u32
    ensures { let call = Heuristic (lists_by lists.entry) separators.old in
        Answers call result (separators.new ∷ []) answer.old answer.new }
{
    put_answer(answer, calls::heuristic(lists, separators))
}

// The answer: the bottleneck's load, speed.
pub fn halving(lists: JobLists, separators: &mut [u32], answer: &mut [u64]) -> u32
    ensures { let call = Halving (lists_by lists.entry) separators.old in
        Answers call result (separators.new ∷ []) answer.old answer.new }
{
    put_answer(answer, calls::halving(lists, separators))
}

// The answer: count, allowance, the bottleneck's load, speed, imbalance.
pub fn plan(
    method: u32,
    lists: JobLists,
    separators: &mut [u32],
    scratch: &mut [u32],
    answer: &mut [u64],
) -> u32
    ensures { let call = Plan method (lists_by lists.entry) separators.old scratch.old in
        Answers call result (separators.new ∷ scratch.new ∷ []) answer.old answer.new }
{
    put_answer(answer, planner::plan(method, lists, separators, scratch))
}

// The answer: the bytes written.
pub fn write_plan(lists: JobLists, separators: &[u32], plan: &mut [u8], answer: &mut [u64]) -> u32
    ensures { let call = WritePlan (lists_by lists.entry) separators.now plan.old in
        Answers call result (plan.new ∷ []) answer.old answer.new }
{
    put_answer(answer, planfile::write_plan(lists, separators, plan))
}

// The answer: 1 best, 2 valid.
pub fn grade(lists: JobLists, plan: &[u8], answer: &mut [u64]) -> u32
    ensures { let call = Grade (lists_by lists.entry) plan.now in
        Answers call result [] answer.old answer.new }
{
    put_answer(answer, grading::grade(lists, plan))
}

// Planning by file. There is no answer but the number.
pub fn plan_job(job: &[u8], method: u32, plan: &mut [u8]) -> u32
    ensures number { let call = PlanJob job.now method plan.old in result ≡ number call }
    ensures left { let call = PlanJob job.now method plan.old in Leaves call (plan.new ∷ []) }
{
    number_of(planner::plan_job(job, method, plan))
}

// Grading by file. There is no answer but the number.
pub fn grade_plan(job: &[u8], plan: &[u8], grade: &mut [u8]) -> u32
    ensures number { let call = GradePlan job.now plan.now grade.old in result ≡ number call }
    ensures left { let call = GradePlan job.now plan.now grade.old in Leaves call (grade.new ∷ []) }
{
    number_of(planner::grade_plan(job, plan, grade))
}
