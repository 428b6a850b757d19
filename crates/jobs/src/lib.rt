// Job files: reading and writing.
#![tactic(auto)]

ghost use Rattle.std.specs.Prelude.{ℕ, ◌+◌, ◌*◌, ◌%◌, ◌<◌, ◌≤◌, ◌≡◌, ◌++◌, length, get_or, take, drop};
ghost use Rattle.std.specs.Prelude.{slice_get, IfOk, T, not};
ghost use Rattle.chain.specs.Job.{edition_of, job_of, Valid};
ghost use Rattle.chain.specs.Numbers.{refused, answered};
ghost use Rattle.chain.specs.Refusal.{first_refusal};
ghost use Rattle.parts.specs.Lent.{the, edition, lent, lent_edition};
ghost use Rattle.refusals.specs.Inputs.{record_size, head_records};
ghost use Rattle.jobs.specs.JobFile.{task_kind, record_bytes, records_bytes, edition_bytes};
ghost use Rattle.jobs.specs.Kinds.{kind_number, kind_of};
ghost use Rattle.jobs.specs.Parse.{record_count, byte_at, kind_at, value_at, hold_at, blank, record_tests, values_of};
ghost use Rattle.jobs.specs.Parse.{second_in, startup_in};
ghost use Rattle.jobs.specs.Answers.{read_in, read_answer, read_speeds, read_holds, read_weights};
ghost use Rattle.jobs.specs.Answers.{write_answer, write_bytes};
ghost use Rattle.jobs.specs.Inner.{records_refusal, front_at, plain_tasks};

use chain::Refusal;
use fields::{get_field, get_half, put_field, put_half};
use parts::{JobLists, ValidJob};
use refusals::{
    MAX_SPEED, MAX_STARTUP, MAX_WEIGHT, RECORD, and_between, effective, head_records, test_counts,
    test_length, test_write_job,
};

// The bytes of a record at which its hold and its value begin.
const HOLD_PLACE: usize = 2;

const VALUE_PLACE: usize = 4;

// The first four bytes of a task's record, as one number.
const TASK_FRONT: u32 = Kind::Task as u32;

// The kinds of records.
#[derive(Clone, Copy, PartialEq, Eq)]
enum Kind {
    Processor = 1,
    Task = 2,
    Startup = 3,
}

// Inner. The number of a kind.
impl From<Kind> for u8 {
    ghost from_gives = { λ kind number. number ≡ kind_number kind };

    fn from(kind: Kind) -> u8 {
        kind as u8
    }
}

// Inner. The kind with this number. No other number is a kind's.
impl TryFrom<u8> for Kind {
    type Error = Refusal;

    ghost try_from_gives = { λ number kind. kind ≡ kind_of number };

    fn try_from(number: u8) -> Result<Kind, Refusal> {
        match number {
            1 => Ok(Kind::Processor),
            2 => Ok(Kind::Task),
            3 => Ok(Kind::Startup),
            _ => Err(Refusal::UnknownRecord),
        }
    }
}

// What is read of a job file: whether it is of the second edition, the start-up work that counts, and how many
// processors and tasks there are.
#[derive(Clone, Copy)]
pub struct JobRead {
    pub second: bool,
    pub startup: u32,
    pub processors: usize,
    pub tasks: usize,
}

impl JobRead {
    // Inner. The job that was read into these lists.
    pub fn job<'a>(self, speeds: &'a [u32], holds: &'a [u16], weights: &'a [u32]) -> ValidJob<'a>
        requires speeds { self.processors ≤ length speeds.now }
        requires holds { self.processors ≤ length holds.now }
        requires weights { self.tasks ≤ length weights.now }
        requires valid { let p = self.processors in
            Valid (job_of self.startup (take p speeds.now) (take p holds.now) (take self.tasks weights.now)) }
        ensures job { let p = self.processors in
            the result ≡ job_of self.startup (take p speeds.now) (take p holds.now) (take self.tasks weights.now) }
        ensures second { result.second ≡ self.second }
    {
        ValidJob {
            second: self.second,
            startup: self.startup,
            speeds: &speeds[..self.processors],
            holds: &holds[..self.processors],
            weights: &weights[..self.tasks],
        }
    }
}

// Inner. One record of a job file at its place.
fn put_record(kind: Kind, hold: u16, value: u32, i: usize, file: &mut [u8])
    requires { record_size * i + record_size ≤ length file.old }
    ensures { let bytes = record_bytes (kind_number kind) hold value in
        file.new ≡ take (record_size * i) file.old ++ bytes ++ drop (record_size * i + record_size) file.old }
{
    let at = RECORD * i;
    file[at] = u8::from(kind);
    file[at + 1] = 0;
    put_half(hold, at + HOLD_PLACE, file);
    put_field(value, at + VALUE_PLACE, file);
}

// Inner. The hold of value i: of each value, or of none, as HELD says, so that no turn of a loop asks for it.
fn hold_in<const HELD: bool>(holds: &[u16], i: usize) -> u16
    requires held { T HELD → i < length holds.now }
    requires free { T (not HELD) → length holds.now ≡ 0 }
    ensures { result ≡ get_or holds.now i 0 }
{
    if HELD { holds[i] } else { 0 }
}

// Inner. A record for each value, from record `from` on, with its hold: 0 where there is none. It is compiled for
// values that have holds and for those that have none.
fn put_records<const HELD: bool>(
    kind: Kind,
    values: &[u32],
    holds: &[u16],
    from: usize,
    file: &mut [u8],
)
    requires room { record_size * (from + length values.now) ≤ length file.old }
    requires held { T HELD → length values.now ≤ length holds.now }
    requires free { T (not HELD) → length holds.now ≡ 0 }
    ensures { let bytes = records_bytes (kind_number kind) (λ p. get_or holds.now p 0) values.now in
        let end = record_size * (from + length values.now) in
        file.new ≡ take (record_size * from) file.old ++ bytes ++ drop end file.old }
{
    for (i, value) in values.iter().enumerate() {
        put_record(kind, hold_in::<HELD>(holds, i), *value, from + i, file);
    }
}

// Inner. The record in front of the processors, in the second edition.
fn put_head(job: ValidJob, file: &mut [u8])
    requires { record_size * head_records (edition job) ≤ length file.old }
    ensures { let edition = edition job.entry in
        file.new ≡ edition_bytes edition ++ drop (record_size * head_records edition) file.old }
{
    if job.second {
        put_record(Kind::Startup, 0, job.startup, 0, file);
    }
}

// Writes a job file of its edition: the count of its bytes, or the refusal: 16, 5, 6, 7, 8 or 9, in this order. Later
// bytes stay.
pub fn write_job(lists: JobLists, file: &mut [u8]) -> Result<usize, Refusal>
    ensures answer { result ≡ write_answer (lent_edition lists.entry) (lent lists.entry) (length file.old) }
    ensures bytes { file.new ≡ write_bytes (lent_edition lists.entry) (lent lists.entry) file.old }
{
    let startup = effective(lists.second, lists.startup);
    let job = test_write_job(JobLists { startup, ..lists }, file.len())?;
    let head = head_records(job.second);
    put_head(job, file);
    put_records::<true>(Kind::Processor, job.speeds, job.holds, head, file);
    put_records::<false>(Kind::Task, job.weights, &[], head + job.speeds.len(), file);
    Ok(RECORD * (head + job.weights.len() + job.speeds.len()))
}

// Inner. Byte k of record i.
fn byte_at(file: &[u8], i: usize, k: usize) -> u8
    requires { (i < record_count file.now) × (k < record_size) }
    ensures { result ≡ byte_at file.now i k }
{
    file[RECORD * i + k]
}

// Inner. The value of record i.
fn value_at(file: &[u8], i: usize) -> u32
    requires { i < record_count file.now }
    ensures { result ≡ value_at file.now i }
{
    get_field(file, RECORD * i + VALUE_PLACE)
}

// Inner. The hold of record i.
fn hold_at(file: &[u8], i: usize) -> u16
    requires { i < record_count file.now }
    ensures { result ≡ hold_at file.now i }
{
    get_half(file, RECORD * i + HOLD_PLACE)
}

// Inner. Whether the bytes of record i that have to be zero are: byte 1, and 2 and 3 where it is not a processor's.
fn blank_at(file: &[u8], i: usize, kind: Kind) -> bool
    requires { (i < record_count file.now) × (kind_number kind ≡ kind_at file.now i) }
    ensures { result ≡ blank file.now i }
{
    byte_at(file, i, 1) == 0
        && (kind == Kind::Processor || (byte_at(file, i, 2) == 0 && byte_at(file, i, 3) == 0))
}

// Inner. The kind of record i, or the refusal: 3, 4, 15, 5, 6 or 16. `tasks` counts the tasks before it.
fn test_record(file: &[u8], i: usize, tasks: usize) -> Result<Kind, Refusal>
    requires { (i < record_count file.now) × (tasks ≡ length (values_of task_kind file.now i)) }
    ensures number { refused result ≡ first_refusal (record_tests file.now i) }
    ensures kind { IfOk result (λ kind. kind_number kind ≡ kind_at file.now i) }
{
    let kind = Kind::try_from(byte_at(file, i, 0))?;
    let value = value_at(file, i);
    if !blank_at(file, i, kind) {
        return Err(Refusal::UnknownRecord);
    }
    match kind {
        Kind::Processor if 0 < tasks => Err(Refusal::ProcessorAfterTask),
        Kind::Processor if value == 0 || MAX_SPEED < value => Err(Refusal::SpeedRange),
        Kind::Task if MAX_WEIGHT < value => Err(Refusal::WeightRange),
        Kind::Startup if 0 < i => Err(Refusal::LateStartup),
        Kind::Startup if MAX_STARTUP < value => Err(Refusal::StartupRange),
        _ => Ok(kind),
    }
}

// Inner. Whether a file of whole records is of the second edition: its first record is the start-up work's.
fn is_second(file: &[u8]) -> bool
    requires { length file.now % record_size ≡ 0 }
    ensures { result ≡ second_in file.now }
{
    0 < file.len() && byte_at(file, 0, 0) == u8::from(Kind::Startup)
}

// Inner. What is read of a file of whole records with these counts: its edition, and the start-up work that counts.
fn read_as(file: &[u8], processors: usize, tasks: usize) -> JobRead
    requires { length file.now % record_size ≡ 0 }
    ensures { let second = second_in file.now in let startup = startup_in file.now in
        result ≡ record { second = second; startup = startup; processors = processors; tasks = tasks } }
{
    let second = is_second(file);
    let startup = if second { value_at(file, 0) } else { 0 };
    JobRead {
        second,
        startup,
        processors,
        tasks,
    }
}

// Inner. The first four bytes of record i, as one number.
fn front_at(file: &[u8], i: usize) -> u32
    requires { i < record_count file.now }
    ensures { result ≡ front_at file.now i }
{
    get_field(file, RECORD * i)
}

// Inner. Whether `count` records from record `from` on are tasks' that pass their tests. It reads them all, so that
// several are tested at once.
fn all_tasks(file: &[u8], from: usize, count: usize) -> bool
    requires { from + count ≤ record_count file.now }
    ensures { result ≡ plain_tasks file.now from count }
{
    let mut all = true;
    for j in 0..count {
        all = and_between(all, TASK_FRONT, TASK_FRONT, front_at(file, from + j));
        all = and_between(all, 0, MAX_WEIGHT, value_at(file, from + j));
    }
    all
}

// Inner. What is read of a file, or the refusal of its length or a record: 2; 3, 4, 15, 5, 6 and 16, record by record.
fn test_records(file: &[u8]) -> Result<JobRead, Refusal>
    ensures { result ≡ answered (records_refusal file.now) (read_in file.now) }
{
    if file.len() % RECORD != 0 {
        return Err(Refusal::PartialRecord);
    }
    let records = file.len() / RECORD;
    let mut processors = 0;
    let mut tasks = 0;
    for i in 0..records {
        let kind = test_record(file, i, tasks)?;
        match kind {
            Kind::Processor => processors += 1,
            Kind::Task => {
                let left = records - i;
                if tasks == 0 && all_tasks(file, i, left) {
                    return Ok(read_as(file, processors, left));
                }
                tasks += 1;
            }
            Kind::Startup => {}
        }
    }
    Ok(read_as(file, processors, tasks))
}

// Inner. What is read of a file into lists of these lengths, or the refusal: those of the records; 7, 8 or 9.
fn test_file(file: &[u8], speeds: usize, holds: usize, weights: usize) -> Result<JobRead, Refusal>
    ensures { result ≡ read_answer file.now speeds holds weights }
{
    let read = test_records(file)?;
    test_counts(read.processors, read.tasks)?;
    test_length(read.tasks, weights)?;
    test_length(read.processors, speeds)?;
    test_length(read.processors, holds)?;
    Ok(read)
}

// Inner. Fills a list with what `entry` gives at each index.
fn fill<T: Copy, F: Fn(usize) -> T>(list: &mut [T], entry: F)
    requires { (i : ℕ) → i < length list.old → F.pre entry i }
    ensures { (i : ℕ) → i < length list.old → (x : T) × (slice_get list.new i ≡ Some x) × F.post entry i x }
{
    for (i, slot) in list.iter_mut().enumerate() {
        *slot = entry(i);
    }
}

// Reads a job file: its edition, the start-up work that counts and how many processors and tasks there are, or the
// refusal: 2; 3, 4, 15, 5, 6 and 16, record by record; 7, 8 or 9. Later entries stay.
pub fn read_job(
    file: &[u8],
    speeds: &mut [u32],
    holds: &mut [u16],
    weights: &mut [u32],
) -> Result<JobRead, Refusal>
    ensures answer { result ≡ read_answer file.now (length speeds.old) (length holds.old) (length weights.old) }
    ensures speeds { speeds.new ≡ read_speeds file.now speeds.old holds.old weights.old }
    ensures holds { holds.new ≡ read_holds file.now speeds.old holds.old weights.old }
    ensures weights { weights.new ≡ read_weights file.now speeds.old holds.old weights.old }
{
    let read = test_file(file, speeds.len(), holds.len(), weights.len())?;
    let head = head_records(read.second);
    let tail = head + read.processors;
    fill(&mut speeds[..read.processors], |p| value_at(file, head + p));
    fill(&mut holds[..read.processors], |p| hold_at(file, head + p));
    fill(&mut weights[..read.tasks], |j| value_at(file, tail + j));
    Ok(read)
}
