// The listing of a job file, as text in a lent buffer: its counts and the plan of each method, or the number that it
// is refused with. What stands in it is a definition, `listing`, and `list` puts exactly these bytes.
#![tactic(auto)]

ghost use Rattle.std.specs.Prelude.{◌+◌, ◌*◌, ◌≤◌, ◌<◌, ◌≡◌, T, length, take, IfOk};
ghost use Rattle.chain.specs.Limits.{max_processors, max_tasks};
ghost use Rattle.chain.specs.Job.{processors, enough};
ghost use Rattle.chain.specs.Numbers.{number_of, refused};
ghost use Rattle.parts.specs.Lent.{the, edition};
ghost use Rattle.jobs.specs.Parse.{edition_in, job_in};
ghost use Rattle.planner.specs.Answers.{Tested};
ghost use Rattle.texts.specs.Room.{field_room};
ghost use Rattle.texts.specs.Page.{HasRoom, Puts};
ghost use Rattle.listing.specs.Listing.{fields, counts_line, figures_text, plan_line, method_line, job_listing};
ghost use Rattle.listing.specs.Listing.{listing_of, listed_refusal};
ghost use Rattle.listing.specs.Room.{figures_room, plan_room, counts_room, listing_room};
ghost use Rattle.listing.specs.Answers.{list_answer, list_writes};

use chain::{Method, Refusal};
use jobs::read_job;
use parts::{ValidJob, any_hold, total};
use planner::{Figures, SCRATCH, SEPARATORS, plan_in};
use refusals::{MAX_PROCESSORS, MAX_TASKS, RECORD, test_enough, test_length};
use texts::{FIELD_ROOM, Page};

// One record more than the longest job: a longer file is judged by that much.
pub const INTAKE: usize = RECORD * (MAX_PROCESSORS + MAX_TASKS + 2);

// Room for each: the line of a plan, the first line, the listing.
const PLAN_ROOM: usize = 6 * FIELD_ROOM + FIELD_ROOM * SEPARATORS;

const COUNTS_ROOM: usize = 21 + 3 * FIELD_ROOM;

pub const LISTING_ROOM: usize = COUNTS_ROOM + 4 * PLAN_ROOM;

// Inner. Puts a space and the number, for each number of the list.
fn put_fields(page: &mut Page, numbers: &[u32])
    requires { HasRoom page.old (field_room * length numbers.now) }
    ensures put { Puts (fields numbers.now) page.old page.new }
    ensures upper_bound { page.new.at ≤ page.old.at + field_room * length numbers.now }
{
    for number in numbers {
        page.put_field(u64::from(*number));
    }
}

// Inner. Puts the numbers of a plan's line before its separators.
fn put_figures(page: &mut Page, method: Method, figures: Figures)
    requires { HasRoom page.old figures_room }
    ensures put { Puts (figures_text (number_of method) figures) page.old page.new }
    ensures upper_bound { page.new.at < page.old.at + figures_room }
{
    page.put_number(u64::from(u32::from(method)));
    page.put_field(u64::from(figures.count));
    page.put_field(u64::from(figures.allowance));
    page.put_field(figures.bottleneck.load);
    page.put_field(figures.bottleneck.speed);
    page.put_field(figures.imbalance);
}

// Inner. Puts the line of a plan.
fn put_plan_line(page: &mut Page, method: Method, figures: Figures, separators: &[u32])
    requires { HasRoom page.old (plan_room (length separators.now)) }
    ensures put { Puts (plan_line (number_of method) figures separators.now) page.old page.new }
    ensures upper_bound { page.new.at ≤ page.old.at + plan_room (length separators.now) }
{
    put_figures(page, method, figures);
    put_fields(page, separators);
    page.put_text(b"\n");
}

// Inner. Plans by the method and puts its line. A job that has been tested is planned: nothing is refused here.
fn list_method(page: &mut Page, method: Method, job: ValidJob)
    requires tested { Tested method (the job) }
    requires room { HasRoom page.old (plan_room (processors (the job) + 1)) }
    ensures put { Puts (method_line (edition job.entry) method (the job.entry)) page.old page.new }
    ensures upper_bound { page.new.at ≤ page.old.at + plan_room (processors (the job.entry) + 1) }
{
    let mut separators = [0u32; SEPARATORS];
    let mut scratch = [0u32; SCRATCH];
    let figures = plan_in(method, job, &mut separators, &mut scratch);
    put_plan_line(page, method, figures, &separators[..=job.speeds.len()]);
}

// Inner. Puts the first line: the job's counts and its total weight.
fn put_counts_line(page: &mut Page, job: ValidJob)
    requires { HasRoom page.old counts_room }
    ensures put { Puts (counts_line (the job.entry)) page.old page.new }
    ensures upper_bound { page.new.at ≤ page.old.at + counts_room }
{
    page.put_labelled(b"tiles", job.weights.len() as u64);
    page.put_labelled(b" machines", job.speeds.len() as u64);
    page.put_labelled(b" total", total(job.weights));
    page.put_text(b"\n");
}

// Inner. Puts the listing of a job whose holds are enough. A job with holds has no line of method 4.
fn list_job(page: &mut Page, job: ValidJob)
    requires enough { T (enough (the job)) }
    requires room { HasRoom page.old listing_room }
    ensures put { Puts (job_listing (edition job.entry) (the job.entry)) page.old page.new }
    ensures upper_bound { page.new.at ≤ page.old.at + listing_room }
{
    put_counts_line(page, job);
    list_method(page, Method::Table, job);
    list_method(page, Method::Bidding, job);
    list_method(page, Method::Bisection, job);
    if any_hold(job) {
        return;
    }
    list_method(page, Method::Nicol, job);
}

// Inner. Reads a job file and tests that the job's holds are enough. The lists have room for any job.
fn read_enough<'a>(
    file: &[u8],
    speeds: &'a mut [u32],
    holds: &'a mut [u16],
    weights: &'a mut [u32],
) -> Result<ValidJob<'a>, Refusal>
    requires speeds_room { max_processors ≤ length speeds.old }
    requires holds_room { max_processors ≤ length holds.old }
    requires weights_room { max_tasks ≤ length weights.old }
    ensures number { refused result ≡ listed_refusal file.now }
    ensures job { IfOk result (λ job. the job ≡ job_in file.now) }
    ensures edition { IfOk result (λ job. edition job ≡ edition_in file.now) }
    ensures enough { IfOk result (λ job. T (enough (the job))) }
{
    let job = read_job(file, speeds, holds, weights)?.job(speeds, holds, weights);
    test_enough(job)?;
    Ok(job)
}

// Inner. Puts the listing of a job file, or the line of its refusal.
fn list_file(page: &mut Page, file: &[u8])
    requires { HasRoom page.old listing_room }
    ensures put { let bytes = file.now in Puts (listing_of (listed_refusal bytes) bytes) page.old page.new }
    ensures upper_bound { page.new.at ≤ page.old.at + listing_room }
{
    let mut speeds = [0u32; MAX_PROCESSORS];
    let mut holds = [0u16; MAX_PROCESSORS];
    let mut weights = [0u32; MAX_TASKS];
    match read_enough(file, &mut speeds, &mut holds, &mut weights) {
        Ok(job) => list_job(page, job),
        Err(refusal) => page.put_refusal_line(u32::from(refusal)),
    }
}

// Puts the listing of a job file to the front of the buffer, of which it judges no more than is taken in: the count
// of its bytes, or refusal 9 for a buffer with less room than LISTING_ROOM. Later bytes stay.
pub fn list(file: &[u8], out: &mut [u8]) -> Result<usize, Refusal>
    ensures answer { result ≡ list_answer file.now (length out.old) }
    ensures bytes { out.new ≡ list_writes file.now out.old }
{
    test_length(LISTING_ROOM, out.len())?;
    let mut page = Page::new(out);
    list_file(&mut page, &file[..INTAKE.min(file.len())]);
    Ok(page.written())
}
