// The line that `grade` writes, as text in a buffer. What stands in it is a definition, `grade_line`. All functions
// here are inner: their callers have room for the line.
#![tactic(auto)]

ghost use Rattle.std.specs.Prelude.{◌+◌, ◌≤◌, length};
ghost use Rattle.texts.specs.Room.{refusal_room, Put};
ghost use Rattle.texts.specs.Page.{HasRoom, Puts};
ghost use Rattle.gradeline.specs.Line.{grade_text, grade_line};

use chain::Refusal;
use grading::{Grade, grade_files};
use listing::INTAKE;
use refusals::{MAX_PROCESSORS, PLAN_RECORD};
use texts::{FIELD_ROOM, Page};

// One record more than the longest plan file: a longer one is judged by that much.
pub const PLAN_INTAKE: usize = PLAN_RECORD * (MAX_PROCESSORS + 1);

// Room for the longest line, that of a refusal.
pub const LINE_ROOM: usize = 8 + FIELD_ROOM;

// Inner. Puts the line of an answer.
fn put_graded(page: &mut Page, graded: Result<Grade, Refusal>)
    requires { HasRoom page.old refusal_room }
    ensures put { Puts (grade_text graded) page.old page.new }
    ensures upper_bound { page.new.at ≤ page.old.at + refusal_room }
{
    match graded {
        Ok(Grade::Best) => page.put_text(b"best\n"),
        Ok(Grade::Valid) => page.put_text(b"valid\n"),
        Err(refusal) => page.put_refusal_line(u32::from(refusal)),
    }
}

// Inner. Puts the line of a job file and a plan file, each judged by no more than is taken in, to the front of the
// buffer, and answers how many bytes it has. It lends a byte for the grade, and makes no test of it.
pub fn put_grade(job: &[u8], plan: &[u8], out: &mut [u8]) -> usize
    requires { refusal_room ≤ length out.old }
    ensures put { Put (grade_line job.now plan.now) 0 out.old out.new result }
    ensures upper_bound { result ≤ refusal_room }
{
    let job = &job[..INTAKE.min(job.len())];
    let plan = &plan[..PLAN_INTAKE.min(plan.len())];
    let mut page = Page::new(out);
    put_graded(&mut page, grade_files(job, plan, 1));
    page.written()
}
