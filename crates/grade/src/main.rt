// The program: two names, of a job file and of a plan file, and one line to standard output. What the line is, is the
// library's (`gradeline::put_grade`); here is only what is read and written.
#![tactic(auto)]

ghost use Rattle.std.specs.Prelude.{◌≡◌, OnOk};
ghost use Rattle.std.specs.Counts.{IsPrefixLen};
ghost use Rattle.std.specs.Io.KnownBytes.{Appends};
ghost use Rattle.intake.specs.Taken.{bytes_taken};
ghost use Rattle.gradeline.specs.Line.{grade_line};

use gradeline::{LINE_ROOM, PLAN_INTAKE, put_grade};
use intake::{ReadFailed, take_in};
use listing::INTAKE;
use std::env::{Env, FillError};
use std::fs::File;
use std::io::{Cursor, Write};
use std::rt::Files;
use std::{io, str};

// Room for any name that a file can be opened by.
const NAME_ROOM: usize = 4096;

// Room for the words of any error.
const REASON_ROOM: usize = 320;

// Says on standard error that the file of this name cannot be read, and why: in the system's words, without the
// number of the error.
fn complain(rt: &impl Eprint, name: &str, error: io::Error) {
    let mut room = Cursor::new([0u8; REASON_ROOM]);
    let _ = write!(room, "{error}");
    let words = str::from_utf8(room.get_ref())
        .unwrap_or("")
        .trim_end_matches('\0');
    let reason = match words.split_once(" (os error ") {
        Some((reason, _)) => reason,
        None => words,
    };
    let _ = eprintln!(rt; "grade: {name}: {reason}");
}

// Takes in the file with this name.
fn take_named(rt: &impl Files, name: &str, file: &mut [u8]) -> Result<usize, ReadFailed>
    ensures { IsPrefixLen (bytes_taken result) file.new }
{
    let mut opened = File::open(rt, name)?;
    take_in(&mut opened, file)
}

// The name that argument i has, or why it is none of a file.
fn name_of<'a>(rt: &impl Env, i: usize, room: &'a mut [u8]) -> Result<&'a str, &'static str> {
    match rt.arg(i, room) {
        Ok(n) => str::from_utf8(&room[..n]).map_err(|_| "Not in UTF-8"),
        Err(FillError::TooLong) => Err("File name too long"),
        Err(FillError::NotPresent) => Err("Invalid argument"),
    }
}

// Takes in the file that argument i names. Where it cannot be read, that is said.
fn take_argument(
    rt: &(impl Env + Files + Eprint),
    i: usize,
    file: &mut [u8],
) -> Result<usize, ReadFailed>
    ensures { IsPrefixLen (bytes_taken result) file.new }
{
    let mut room = [0u8; NAME_ROOM];
    let (name, taken) = match name_of(rt, i, &mut room) {
        Ok(name) => (name, take_named(rt, name, file)),
        Err(why) => (
            "a file's name",
            Err(ReadFailed::from(io::Error::other(why))),
        ),
    };
    if let Err(failed) = taken {
        complain(rt, name, failed.error);
    }
    taken
}

// Hands the line to standard output: it has to be that of the two files.
fn send<W: Write>(out: &mut W, job: &[u8], plan: &[u8], line: &[u8]) -> io::Result<()>
    requires { line.now ≡ grade_line job.now plan.now }
    ensures { OnOk result (Appends (W.contents out.old) (W.contents out.new) (grade_line job.now plan.now)) }
{
    out.write_all(line)
}

// Writes the line of what came.
fn answer<W: Write>(out: &mut W, job: &[u8], plan: &[u8]) -> io::Result<()>
    ensures { OnOk result (Appends (W.contents out.old) (W.contents out.new) (grade_line job.now plan.now)) }
{
    let mut line = [0u8; LINE_ROOM];
    let n = put_grade(job, plan, &mut line);
    send(out, job, plan, &line[..n])
}

// Whether there is an argument i.
fn is_given(rt: &impl Env, i: usize) -> bool {
    let mut start = [0u8; 1];
    !matches!(rt.arg(i, &mut start), Err(FillError::NotPresent))
}

fn main(rt: HostRuntime) {
    if !is_given(&rt, 2) || is_given(&rt, 3) {
        let _ = eprintln!(rt; "grade: two files are wanted, a job and its plan: grade JOB PLAN");
        return;
    }
    let mut job = [0u8; INTAKE];
    let Ok(n) = take_argument(&rt, 1, &mut job) else {
        return;
    };
    let mut plan = [0u8; PLAN_INTAKE];
    let Ok(m) = take_argument(&rt, 2, &mut plan) else {
        return;
    };
    if answer(&mut rt.stdout(), &job[..n], &plan[..m]).is_err() {
        let _ = eprintln!(rt; "grade: the line cannot be written");
    }
}
