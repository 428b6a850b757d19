// The table (dynamic programming): scope 5.4 to 5.9. All functions here are inner: their callers have tested the job.
// The scratch list holds the N + 1 prefix sums, and behind them two rows of N + 1 pairs, load and speed.
#![tactic(auto)]

ghost use Rattle.std.specs.Prelude.{suc, ◌+◌, ◌-◌, ◌*◌, ◌≤◌, ◌<◌, ◌^◌, ◌≡◌, length};
ghost use Rattle.chain.specs.Job.{tasks, processors, last, speed_of, offer};
ghost use Rattle.chain.specs.Dynamic.{start_of, table_value, crossing, moves};
ghost use Rattle.chain.specs.Ranges.{Narrow};
ghost use Rattle.parts.specs.Lent.{the};
ghost use Rattle.parts.specs.Prefix.{Prefix};
ghost use Rattle.dynamic.specs.Rows.{entry_at, stored, RowAt, Begun, Movable, Advanced, Begins, FilledTo};
ghost use Rattle.dynamic.specs.Rows.{Filled, Tabled};

use bound::Bound;
use parts::{Found, Line, ValidJob, hold_of, keeps_hold, part_bound, started_bound};

// Inner. Entry i of a row.
fn entry(row: &[u32], i: usize) -> Bound
    requires { 2 * i + 1 < length row.now }
    ensures { result ≡ entry_at row.now i }
{
    Bound {
        load: u64::from(row[2 * i]),
        speed: u64::from(row[2 * i + 1]),
    }
}

// Inner. Stores entry i of a row.
fn put(row: &mut [u32], i: usize, value: Bound)
    requires inside { 2 * i + 1 < length row.old }
    requires narrow { Narrow value }
    ensures { row.new ≡ stored row.old i value }
{
    row[2 * i] = value.load as u32;
    row[2 * i + 1] = value.speed as u32;
}

// The pointer of a row, and the moves that pointers have made so far.
#[derive(Clone, Copy)]
struct Pointer {
    at: usize,
    moves: u32,
}

impl Pointer {
    // Inner. The pointer moves on to where j begins, if it is before that.
    fn begin(self, first: usize) -> Pointer
        requires { self.moves + first < 2 ^ 32 + self.at }
        ensures { Begun first self.at self.moves result.at result.moves }
    {
        let at = self.at.max(first);
        Pointer {
            at,
            moves: self.moves + (at - self.at) as u32,
        }
    }
}

// What a row after the first is made from: the line, the row before, which is that of processor p, and the speed of the
// processor behind p.
#[derive(Clone, Copy)]
struct NextRow<'a> {
    line: Line<'a>,
    before: &'a [u32],
    p: usize,
    speed: u32,
    ghost row_before: { RowAt (the line.job) before.now p (suc (tasks (the line.job))) },
    ghost behind: { suc p < processors (the line.job) },
    ghost speed_is: { speed ≡ speed_of (the line.job) (suc p) },
}

impl NextRow<'_> {
    // Inner. The pointer moves on to the crossing of i; it is at or past where j begins. At i at the latest it stops:
    // the part is empty there.
    fn move_on(self, startup: u32, i: usize, start: Pointer) -> Pointer
        requires startup_is { startup ≡ self.line.job.startup }
        requires movable { Movable (the self.line.job) self.p i start.at start.moves }
        ensures { let row = self.entry in
            Advanced (the row.line.job) row.p i start.at start.moves result.at result.moves }
    {
        let mut at = start.at;
        let mut moves = start.moves;
        loop {
            let part = part_bound(startup, self.speed, self.line.sums, at, i);
            if part.at_most(entry(self.before, at)) {
                return Pointer { at, moves };
            }
            at += 1;
            moves += 1;
        }
    }

    // Inner. The same. Without start-up work the loop is compiled for 0, and a load is a difference of two sums.
    fn advance(self, i: usize, start: Pointer) -> Pointer
        requires { Movable (the self.line.job) self.p i start.at start.moves }
        ensures { let row = self.entry in
            Advanced (the row.line.job) row.p i start.at start.moves result.at result.moves }
    {
        let startup = self.line.job.startup;
        if startup == 0 {
            return self.move_on(0, i, start);
        }
        self.move_on(startup, i, start)
    }

    // Inner. The value at i; j begins at `first`. At the crossing the row before is the greater of the two, before the
    // crossing the part is.
    fn value_at(self, first: usize, i: usize, at: usize) -> Bound
        requires index { i ≤ tasks (the self.line.job) }
        requires first_is { first ≡ start_of (the self.line.job) (suc self.p) i }
        requires at_crossing { at ≡ crossing (the self.line.job) self.p i }
        ensures { result ≡ table_value (the self.entry.line.job) (suc self.entry.p) i }
    {
        let here = entry(self.before, at);
        if at == first {
            return here;
        }
        let part = started_bound(self.line.job.startup, self.speed, self.line.sums, at - 1, i);
        here.lesser(part)
    }

    // Inner. Fills the entries from `from` to `to`, at which j begins at i less the hold where that is limited, else at 0:
    // it is compiled for both. Those before are filled, and the pointer stands where they left it: all its moves but
    // `at` were made in earlier rows.
    fn fill<const LIMITED: bool>(
        self,
        from: usize,
        to: usize,
        hold: usize,
        row: &mut [u32],
        start: Pointer,
    ) -> Pointer
        requires begins { Begins (the self.line.job) self.p LIMITED hold from to }
        requires filled { let job = the self.line.job in
            FilledTo job row.old self.p from (start.moves - start.at) start.at start.moves }
        requires moves_fit { start.moves - start.at + tasks (the self.line.job) < 2 ^ 32 }
        ensures { let job = the self.entry.line.job in
            FilledTo job row.new self.entry.p to (start.moves - start.at) result.at result.moves }
    {
        let mut pointer = start;
        for i in from..to {
            let first = if LIMITED { i - hold } else { 0 };
            pointer = self.advance(i, pointer.begin(first));
            put(row, i, self.value_at(first, i, pointer.at));
        }
        pointer
    }

    // Inner. Fills the row, whose pointer starts at 0, and gives the moves that are made by then.
    fn fill_row(self, row: &mut [u32], moves: u32) -> u32
        requires room { 2 * suc (tasks (the self.line.job)) ≤ length row.old }
        requires moves_fit { moves + tasks (the self.line.job) < 2 ^ 32 }
        ensures { Filled (the self.entry.line.job) row.new self.entry.p moves result }
    {
        let all = self.line.job.weights.len() + 1;
        let hold = hold_of(self.line.job, self.p + 1);
        let free = if hold == 0 { all } else { all.min(hold + 1) };
        let start = Pointer { at: 0, moves };
        let pointer = self.fill::<false>(0, free, hold, row, start);
        self.fill::<true>(free, all, hold, row, pointer).moves
    }
}

// Inner. What the table enters for the first i tasks on processor 0: none, 1/0, where it does not hold them.
fn first_offer(line: Line, i: usize) -> Bound
    requires { i ≤ tasks (the line.job) }
    ensures { result ≡ offer (the line.entry.job) 0 0 i }
{
    if !keeps_hold(line.job, 0, 0, i) {
        return Bound::INFINITE;
    }
    part_bound(line.job.startup, line.job.speeds[0], line.sums, 0, i)
}

// Inner. Fills the row of processor 0.
fn first_row(line: Line, row: &mut [u32])
    requires { 2 * suc (tasks (the line.job)) ≤ length row.old }
    ensures { let job = the line.entry.job in RowAt job row.new 0 (suc (tasks job)) }
{
    for i in 0..line.job.weights.len() + 1 {
        put(row, i, first_offer(line, i));
    }
}

// Inner. The value of the last processor at the last task, and the moves made. Two rows are filled in turn, each from
// the other.
fn fill_rows(job: ValidJob, sums: &[u32], rows: &mut [u32]) -> Found
    requires prefix { Prefix (the job) sums.now }
    requires room { length rows.old ≡ 4 * suc (tasks (the job)) }
    ensures value { let job = the job.entry in result.bound ≡ table_value job (last job) (tasks job) }
    ensures count { result.count ≡ moves (the job.entry) }
{
    let line = Line::new(job, sums);
    let n = line.job.weights.len();
    let (mut before, mut row) = rows.split_at_mut(2 * (n + 1));
    let mut moves = 0;
    first_row(line, before);
    for p in 0..line.job.speeds.len() - 1 {
        let speed = line.job.speeds[p + 1];
        let next = NextRow {
            line,
            before,
            p,
            speed,
        };
        moves = next.fill_row(row, moves);
        (before, row) = (row, before);
    }
    Found {
        bound: entry(before, n),
        count: moves,
    }
}

// Inner. The same. The scratch list begins with the prefix sums, which stay; the two rows behind them are free for use.
pub fn table_in(job: ValidJob, scratch: &mut [u32]) -> Found
    requires prefix { Prefix (the job) scratch.old }
    requires room { 5 * suc (tasks (the job)) ≤ length scratch.old }
    ensures { Tabled (the job.entry) scratch.old scratch.new result.bound result.count }
{
    let n = job.weights.len() + 1;
    let (sums, rows) = scratch.split_at_mut(n);
    fill_rows(job, sums, &mut rows[..4 * n])
}
