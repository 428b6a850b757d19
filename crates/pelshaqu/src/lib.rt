// The library: every callable function as a C function, which include/pelshaqu.h declares. In C a slice is a pointer,
// then its length. Each returns 0 or the refusal's number. What the function answers goes into the lent `answer`, one
// number an entry; those past its end are dropped, and a refusal leaves `answer` as it was. What each does stands in
// `answers`.
#![tactic(auto)]

ghost use Rattle.std.specs.Prelude.{◌≡◌, [], ◌∷◌};
ghost use Rattle.demands.specs.Call.{TestJob, ReadJob, WriteJob, Measure, Probe, Heuristic, Halving, Plan, WritePlan};
ghost use Rattle.demands.specs.Call.{Grade, ListJob, PlanJob, GradePlan, by_lists, Leaves};
ghost use Rattle.demands.specs.Demands.{number};
ghost use Rattle.answers.specs.Answer.{Answers};

use answers::lists_of;
use bound::Bound;

// There is no answer but the number.
#[unsafe(no_mangle)]
pub extern "C" fn pelshaqu_test_job(
    second: bool,
    startup: u32,
    speeds: &[u32],
    holds: &[u16],
    weights: &[u32],
) -> u32
    ensures { let call = TestJob (by_lists second startup speeds.now holds.now weights.now) in
        result ≡ number call }
{
    let lists = lists_of(second, startup, speeds, holds, weights);
    answers::test_job(lists)
}

// The answer: the edition, c, P, N.
#[unsafe(no_mangle)]
pub extern "C" fn pelshaqu_read_job(
    file: &[u8],
    speeds: &mut [u32],
    holds: &mut [u16],
    weights: &mut [u32],
    answer: &mut [u64],
) -> u32
    ensures { let call = ReadJob file.now speeds.old holds.old weights.old in
        Answers call result (speeds.new ∷ holds.new ∷ weights.new ∷ []) answer.old answer.new }
{
    answers::read_job(file, speeds, holds, weights, answer)
}

// The answer: the bytes written.
#[unsafe(no_mangle)]
pub extern "C" fn pelshaqu_write_job(
    second: bool,
    startup: u32,
    speeds: &[u32],
    holds: &[u16],
    weights: &[u32],
    file: &mut [u8],
    answer: &mut [u64],
) -> u32
    ensures { let call = WriteJob (by_lists second startup speeds.now holds.now weights.now) file.old in
        Answers call result (file.new ∷ []) answer.old answer.new }
{
    let lists = lists_of(second, startup, speeds, holds, weights);
    answers::write_job(lists, file, answer)
}

// The answer: the bytes of the listing.
#[unsafe(no_mangle)]
pub extern "C" fn pelshaqu_list_job(file: &[u8], text: &mut [u8], answer: &mut [u64]) -> u32
    ensures { let call = ListJob file.now text.old in
        Answers call result (text.new ∷ []) answer.old answer.new }
{
    answers::list_job(file, text, answer)
}

// The answer: the bottleneck's load, speed.
#[unsafe(no_mangle)]
pub extern "C" fn pelshaqu_measure(
    second: bool,
    startup: u32,
    speeds: &[u32],
    holds: &[u16],
    weights: &[u32],
    separators: &[u32],
    answer: &mut [u64],
) -> u32
    ensures { let call = Measure (by_lists second startup speeds.now holds.now weights.now) separators.now in
        Answers call result [] answer.old answer.new }
{
    let lists = lists_of(second, startup, speeds, holds, weights);
    answers::measure(lists, separators, answer)
}

// The answer: 1 and the machines that the walk came to; or 0 and the next bid's load, speed.
#[unsafe(no_mangle)]
pub extern "C" fn pelshaqu_trial(
    second: bool,
    startup: u32,
    speeds: &[u32],
    holds: &[u16],
    weights: &[u32],
    load: u64,
    speed: u64,
    separators: &mut [u32],
    answer: &mut [u64],
) -> u32
    ensures { let g = by_lists second startup speeds.now holds.now weights.now in
        let call = Probe g (record { load = load; speed = speed }) separators.old in
        Answers call result (separators.new ∷ []) answer.old answer.new }
{
    let lists = lists_of(second, startup, speeds, holds, weights);
    answers::probe(lists, Bound { load, speed }, separators, answer)
}

// The answer: the bottleneck's load, speed.
#[unsafe(no_mangle)]
pub extern "C" fn pelshaqu_quick_plan(
    second: bool,
    startup: u32,
    speeds: &[u32],
    holds: &[u16],
    weights: &[u32],
    separators: &mut [u32],
    answer: &mut [u64],
) -> u32
    ensures { let call = Heuristic (by_lists second startup speeds.now holds.now weights.now) separators.old in
        Answers call result (separators.new ∷ []) answer.old answer.new }
{
    let lists = lists_of(second, startup, speeds, holds, weights);
    answers::heuristic(lists, separators, answer)
}

// The answer: the bottleneck's load, speed.
#[unsafe(no_mangle)]
pub extern "C" fn pelshaqu_halve_row(
    second: bool,
    startup: u32,
    speeds: &[u32],
    holds: &[u16],
    weights: &[u32],
    separators: &mut [u32],
    answer: &mut [u64],
) -> u32
    ensures { let call = Halving (by_lists second startup speeds.now holds.now weights.now) separators.old in
        Answers call result (separators.new ∷ []) answer.old answer.new }
{
    let lists = lists_of(second, startup, speeds, holds, weights);
    answers::halving(lists, separators, answer)
}

// The answer: count, allowance, the bottleneck's load, speed, imbalance.
#[unsafe(no_mangle)]
pub extern "C" fn pelshaqu_plan(
    method: u32,
    second: bool,
    startup: u32,
    speeds: &[u32],
    holds: &[u16],
    weights: &[u32],
    separators: &mut [u32],
    scratch: &mut [u32],
    answer: &mut [u64],
) -> u32
    ensures { let g = by_lists second startup speeds.now holds.now weights.now in
        let call = Plan method g separators.old scratch.old in
        Answers call result (separators.new ∷ scratch.new ∷ []) answer.old answer.new }
{
    let lists = lists_of(second, startup, speeds, holds, weights);
    answers::plan(method, lists, separators, scratch, answer)
}

// The answer: the bytes written.
#[unsafe(no_mangle)]
pub extern "C" fn pelshaqu_write_plan(
    second: bool,
    startup: u32,
    speeds: &[u32],
    holds: &[u16],
    weights: &[u32],
    separators: &[u32],
    plan: &mut [u8],
    answer: &mut [u64],
) -> u32
    ensures { let g = by_lists second startup speeds.now holds.now weights.now in
        let call = WritePlan g separators.now plan.old in
        Answers call result (plan.new ∷ []) answer.old answer.new }
{
    let lists = lists_of(second, startup, speeds, holds, weights);
    answers::write_plan(lists, separators, plan, answer)
}

// The answer: 1 best, 2 valid.
#[unsafe(no_mangle)]
pub extern "C" fn pelshaqu_grade(
    second: bool,
    startup: u32,
    speeds: &[u32],
    holds: &[u16],
    weights: &[u32],
    plan: &[u8],
    answer: &mut [u64],
) -> u32
    ensures { let call = Grade (by_lists second startup speeds.now holds.now weights.now) plan.now in
        Answers call result [] answer.old answer.new }
{
    let lists = lists_of(second, startup, speeds, holds, weights);
    answers::grade(lists, plan, answer)
}

// Planning by file. This name and the next are published: they are the same function.
#[unsafe(no_mangle)]
pub extern "C" fn plan_job(job: &[u8], method: u32, plan: &mut [u8]) -> u32
    ensures number { let call = PlanJob job.now method plan.old in
        result ≡ number call }
    ensures left { let call = PlanJob job.now method plan.old in
        Leaves call (plan.new ∷ []) }
{
    answers::plan_job(job, method, plan)
}

#[unsafe(no_mangle)]
pub extern "C" fn pelshaqu_plan_job(job: &[u8], method: u32, plan: &mut [u8]) -> u32
    ensures number { let call = PlanJob job.now method plan.old in
        result ≡ number call }
    ensures left { let call = PlanJob job.now method plan.old in
        Leaves call (plan.new ∷ []) }
{
    plan_job(job, method, plan)
}

// Grading by file, under both names as well.
#[unsafe(no_mangle)]
pub extern "C" fn grade_plan(job: &[u8], plan: &[u8], grade: &mut [u8]) -> u32
    ensures number { let call = GradePlan job.now plan.now grade.old in
        result ≡ number call }
    ensures left { let call = GradePlan job.now plan.now grade.old in
        Leaves call (grade.new ∷ []) }
{
    answers::grade_plan(job, plan, grade)
}

#[unsafe(no_mangle)]
pub extern "C" fn pelshaqu_grade_plan(job: &[u8], plan: &[u8], grade: &mut [u8]) -> u32
    ensures number { let call = GradePlan job.now plan.now grade.old in
        result ≡ number call }
    ensures left { let call = GradePlan job.now plan.now grade.old in
        Leaves call (grade.new ∷ []) }
{
    grade_plan(job, plan, grade)
}
