// Runs edge lines and worked lines of the scope on the proved library. A line of the output is the number of a case, then
// each answer: the number of the refusal, or 0 and what was answered; then what the lent lists hold. What a case is stands
// beside it.
#![tactic(auto)]

use bound::Bound;
use chain::{Outcome, Refusal};
use jobs::JobRead;
use parts::JobLists;
use planner::Figures;
use refusals::{MAX_PROCESSORS, MAX_TASKS};
use std::io;

// Begins a line with the number of a case.
fn begin_line(rt: &impl Print, case: u64) -> io::Result<()> {
    print!(rt; "{case}")
}

fn say(rt: &impl Print, n: u64) -> io::Result<()> {
    print!(rt; " {n}")
}

fn end_line(rt: &impl Print) -> io::Result<()> {
    println!(rt; "")
}

fn say_list<T: Copy + Into<u64>>(rt: &impl Print, list: &[T]) -> io::Result<()> {
    for x in list {
        say(rt, (*x).into())?;
    }
    Ok(())
}

fn say_refusal(rt: &impl Print, refusal: Refusal) -> io::Result<()> {
    say(rt, u64::from(u32::from(refusal)))
}

fn say_bound(rt: &impl Print, bound: Bound) -> io::Result<()> {
    say(rt, 0)?;
    say(rt, bound.load)?;
    say(rt, bound.speed)
}

// A job that is read: 0, the edition, the start-up work that counts, the machines and the tiles.
fn say_job(rt: &impl Print, read: JobRead) -> io::Result<()> {
    say(rt, 0)?;
    say(rt, if read.second { 2 } else { 1 })?;
    say(rt, u64::from(read.startup))?;
    say(rt, read.processors as u64)?;
    say(rt, read.tasks as u64)
}

fn say_read(rt: &impl Print, answer: Result<JobRead, Refusal>) -> io::Result<()> {
    match answer {
        Ok(read) => say_job(rt, read),
        Err(refusal) => say_refusal(rt, refusal),
    }
}

fn say_measured(rt: &impl Print, answer: Result<Bound, Refusal>) -> io::Result<()> {
    match answer {
        Ok(bound) => say_bound(rt, bound),
        Err(refusal) => say_refusal(rt, refusal),
    }
}

// A fit is 0 and the number of machines that its walk came to; a failure is 0, the next bid's load and its speed.
fn say_probed(rt: &impl Print, answer: Result<Outcome, Refusal>) -> io::Result<()> {
    match answer {
        Ok(Outcome::Fits(visited)) => {
            say(rt, 0)?;
            say(rt, visited as u64)
        }
        Ok(Outcome::Fails(next)) => say_bound(rt, next),
        Err(refusal) => say_refusal(rt, refusal),
    }
}

// A plan: 0, its count, its allowance, the bottleneck's load and speed, its imbalance.
fn say_figures(rt: &impl Print, figures: Figures) -> io::Result<()> {
    say(rt, 0)?;
    say(rt, u64::from(figures.count))?;
    say(rt, u64::from(figures.allowance))?;
    say(rt, figures.bottleneck.load)?;
    say(rt, figures.bottleneck.speed)?;
    say(rt, figures.imbalance)
}

fn say_planned(rt: &impl Print, answer: Result<Figures, Refusal>) -> io::Result<()> {
    match answer {
        Ok(figures) => say_figures(rt, figures),
        Err(refusal) => say_refusal(rt, refusal),
    }
}

// Reads a file into lists of one speed, one hold and one weight that hold 9, and says what they then hold.
fn read(rt: &impl Print, case: u64, file: &[u8]) -> io::Result<()> {
    let mut speeds = [9u32; 1];
    let mut holds = [9u16; 1];
    let mut weights = [9u32; 1];
    begin_line(rt, case)?;
    say_read(
        rt,
        jobs::read_job(file, &mut speeds, &mut holds, &mut weights),
    )?;
    say_list(rt, &speeds)?;
    say_list(rt, &holds)?;
    say_list(rt, &weights)?;
    end_line(rt)
}

// Measures a division of a job.
fn measure_in(rt: &impl Print, case: u64, lists: JobLists, separators: &[u32]) -> io::Result<()> {
    begin_line(rt, case)?;
    say_measured(rt, calls::measure(lists, separators))?;
    end_line(rt)
}

// Measures a division of a job by lists, of the first edition and without holds.
fn measure(
    rt: &impl Print,
    case: u64,
    speeds: &[u32],
    weights: &[u32],
    separators: &[u32],
) -> io::Result<()> {
    let lists = JobLists {
        second: false,
        startup: 0,
        speeds,
        holds: &[0; MAX_PROCESSORS + 1],
        weights,
    };
    measure_in(rt, case, lists, separators)
}

// Job A with this start-up work in this edition, these speeds and these holds.
fn job_a<'a>(second: bool, startup: u32, speeds: &'a [u32], holds: &'a [u16]) -> JobLists<'a> {
    JobLists {
        second,
        startup,
        speeds,
        holds,
        weights: &[1, 3, 8],
    }
}

// Job A in the first edition, with these holds.
fn job_held(holds: &[u16]) -> JobLists {
    job_a(false, 0, &[1, 3], holds)
}

// The probe of a job of two machines at a bound.
fn probe_in(rt: &impl Print, case: u64, lists: JobLists, bound: Bound) -> io::Result<()> {
    let mut separators = [7u32; 4];
    begin_line(rt, case)?;
    say_probed(rt, calls::probe(lists, bound, &mut separators))?;
    say_list(rt, &separators)?;
    end_line(rt)
}

fn probe_started(
    rt: &impl Print,
    case: u64,
    second: bool,
    startup: u32,
    load: u64,
    speed: u64,
) -> io::Result<()> {
    probe_in(
        rt,
        case,
        job_a(second, startup, &[1, 3], &[0, 0]),
        Bound { load, speed },
    )
}

fn probe_held(rt: &impl Print, case: u64, holds: &[u16], load: u64, speed: u64) -> io::Result<()> {
    probe_in(rt, case, job_held(holds), Bound { load, speed })
}

fn probe(rt: &impl Print, case: u64, load: u64, speed: u64) -> io::Result<()> {
    probe_held(rt, case, &[0, 0], load, speed)
}

// Measures 0 3 3 of the job of these speeds and A's weights, with this start-up work in this edition.
fn measure_started(
    rt: &impl Print,
    case: u64,
    second: bool,
    startup: u32,
    speeds: &[u32],
) -> io::Result<()> {
    measure_in(
        rt,
        case,
        job_a(second, startup, speeds, &[0, 0]),
        &[0, 3, 3],
    )
}

// Measures a division of job S.
fn measure_held(rt: &impl Print, case: u64, separators: &[u32]) -> io::Result<()> {
    measure_in(rt, case, job_held(&[0, 1]), separators)
}

// The heuristic on job A with these holds.
fn heuristic_held(rt: &impl Print, case: u64, holds: &[u16]) -> io::Result<()> {
    let mut separators = [7u32; 4];
    begin_line(rt, case)?;
    say_measured(rt, calls::heuristic(job_held(holds), &mut separators))?;
    say_list(rt, &separators)?;
    end_line(rt)
}

fn heuristic(rt: &impl Print, case: u64) -> io::Result<()> {
    heuristic_held(rt, case, &[0, 0])
}

// A plan of job A with these holds.
fn plan_held(rt: &impl Print, case: u64, method: u32, holds: &[u16]) -> io::Result<()> {
    let mut separators = [7u32; 4];
    let mut scratch = [0u32; 20];
    begin_line(rt, case)?;
    say_planned(
        rt,
        planner::plan(method, job_held(holds), &mut separators, &mut scratch),
    )?;
    say_list(rt, &separators)?;
    end_line(rt)
}

fn one_record(rt: &impl Print) -> io::Result<()> {
    read(rt, 1, &[])?; // an empty file: 7
    read(rt, 2, &[1, 0, 0, 0, 1, 0, 0])?; // 7 bytes: 2
    read(rt, 3, &[1, 1, 0, 0, 0, 0, 0, 0])?; // byte 1 not zero, before speed 0: 3
    read(rt, 4, &[1, 0, 0, 0, 0, 0, 0, 0])?; // speed 0: 5
    read(rt, 5, &[1, 0, 0, 0, 16, 39, 0, 0])?; // speed 10,000 is read
    read(rt, 6, &[1, 0, 0, 0, 17, 39, 0, 0])?; // speed 10,001: 5
    Ok(())
}

fn two_records(rt: &impl Print) -> io::Result<()> {
    read(rt, 7, &[1, 0, 0, 0, 1, 0, 0, 0, 2, 0, 0, 0, 64, 66, 15, 0])?; // weight 1,000,000 is read
    read(rt, 8, &[1, 0, 0, 0, 1, 0, 0, 0, 2, 0, 0, 0, 65, 66, 15, 0])?; // weight 1,000,001: 6
    read(rt, 9, &[2, 0, 0, 0, 1, 0, 0, 0, 1, 0, 0, 0, 0, 0, 0, 0])?; // a machine after a tile, before its speed 0: 4
    read(rt, 10, &[1, 0, 0, 0, 1, 0, 0, 0, 1, 0, 0, 0, 1, 0, 0, 0])?; // two machines, one speed lent: 9
    Ok(())
}

// With no separators, so that counts that pass give 9.
fn counts(rt: &impl Print) -> io::Result<()> {
    measure(rt, 11, &[1; MAX_PROCESSORS], &[], &[])?; // the most machines pass
    measure(rt, 12, &[1; MAX_PROCESSORS + 1], &[], &[])?; // one more: 7
    measure(rt, 13, &[1], &[0; MAX_TASKS], &[])?; // the most tiles pass
    measure(rt, 14, &[1], &[0; MAX_TASKS + 1], &[])?; // one more: 8
    Ok(())
}

fn calls_on_a(rt: &impl Print) -> io::Result<()> {
    probe(rt, 15, 3, 1)?; // fails, next 11/3, with 0 1 2
    probe(rt, 16, 11, 3)?; // fits with 2 machines
    probe(rt, 17, 23, 6)?; // fits with 2 machines
    probe(rt, 18, 3, 0)?; // a bound of speed 0: 10
    heuristic(rt, 19)?; // 0 2 3, bottleneck 4/1
    measure(rt, 20, &[1, 3], &[1, 3, 8], &[0, 3, 3])?; // 12/1
    measure(rt, 21, &[1, 3], &[1, 3, 8], &[0, 2, 2])?; // no division: 11
    measure(rt, 22, &[1, 3], &[1, 3, 8], &[0, 3])?; // a separator too few: 9
    probe(rt, 33, 12, 1)?; // fits with 1 machine, 0 3 3
    Ok(())
}

fn second_edition(rt: &impl Print) -> io::Result<()> {
    // c = 5, a machine of speed 2, a tile of weight 7
    read(
        rt,
        23,
        &[
            3, 0, 0, 0, 5, 0, 0, 0, 1, 0, 0, 0, 2, 0, 0, 0, 2, 0, 0, 0, 7, 0, 0, 0,
        ],
    )?;
    read(rt, 24, &[1, 0, 0, 0, 1, 0, 0, 0, 3, 0, 0, 0, 5, 0, 0, 0])?; // kind 3 in the second record: 15
    read(rt, 25, &[3, 0, 0, 0, 64, 66, 15, 0])?; // c = 1,000,000 and no machine: 7
    read(rt, 26, &[3, 0, 0, 0, 65, 66, 15, 0])?; // c = 1,000,001: 16
    read(rt, 27, &[3, 0, 0, 1, 65, 66, 15, 0])?; // byte 3 not zero, before c: 3
    measure_started(rt, 28, true, 2, &[1, 3])?; // 14/1
    measure_started(rt, 29, false, 2, &[1, 3])?; // in the first edition c is not looked at: 12/1
    measure_started(rt, 30, false, 1_000_001, &[1, 3])?; // nor tested
    measure_started(rt, 31, true, 1_000_001, &[0, 3])?; // before a speed of 0: 16
    probe_started(rt, 32, true, 2, 1, 1)?; // fails, next 3/1, with 0 0 1
    Ok(())
}

// Job S, which is A with holds 0 1, and jobs with other holds.
fn with_holds(rt: &impl Print) -> io::Result<()> {
    read(rt, 34, &[1, 0, 255, 255, 1, 0, 0, 0])?; // a hold of 65,535 is read
    read(rt, 35, &[1, 1, 0, 0, 1, 0, 0, 0])?; // byte 1 not zero: 3
    read(rt, 36, &[2, 0, 1, 0, 1, 0, 0, 0])?; // bytes 2 and 3 of a tile: 3
    plan_held(rt, 37, 1, &[0, 1])?; // 0 2 3, bottleneck 4/1
    plan_held(rt, 38, 2, &[0, 1])?;
    plan_held(rt, 39, 3, &[0, 1, 5])?; // entries behind the machines are not looked at
    plan_held(rt, 40, 4, &[0, 1])?; // method 4: 18
    plan_held(rt, 41, 4, &[0, 0])?; // without holds it plans
    plan_held(rt, 42, 4, &[1, 1])?; // the holds add up to less than 3 tiles: 17
    plan_held(rt, 43, 1, &[1])?; // a list of holds too short: 9
    probe_held(rt, 44, &[0, 1], 11, 3)?; // fails, next 4/1, with 0 1 2
    probe_held(rt, 45, &[0, 1], 12, 1)?; // fits with 1 machine, 0 3 3
    probe_held(rt, 46, &[1, 1], 12, 0)?; // before the bound of speed 0: 17
    measure_held(rt, 47, &[0, 1, 3])?; // the second holds one: 11
    measure_held(rt, 48, &[0, 2, 3])?; // 4/1
    heuristic_held(rt, 49, &[0, 1])?; // 18
    heuristic_held(rt, 50, &[1, 1])?; // no test 17: 18
    Ok(())
}

fn main(rt: HostRuntime) -> io::Result<()> {
    one_record(&rt)?;
    two_records(&rt)?;
    counts(&rt)?;
    calls_on_a(&rt)?;
    second_edition(&rt)?;
    with_holds(&rt)
}
