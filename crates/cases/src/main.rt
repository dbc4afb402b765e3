#![tactic(auto)]

// Runs the measuring call, the job names, the planner and planning afresh on the cases of standard input, and prints a line for
// each case.
//
// A case is four parts, each ended by a form feed: a note, a sheet, a list of levels, a byte each, and seven numbers parted by
// tabs: how many words and bytes to lend to the planner, and a reading to plan afresh from: jobs done, level, time, energy and
// temperature. Its line has the note; of the measuring call the refusal's number, line and field and the three margins; the names
// of jobs 0, 1 and 64; and twice, of the planner and of planning afresh, the refusal's number, line and field, the plan's time,
// energy and final temperature, and what was left in memory: the bytes of the part as digits, and the table's words in one figure.
ghost use Rattle.std.specs.Prelude.{◌<◌, ◌≤◌, length, IfSome};

use afresh::Reading;
use refusal::Refusal;
use reply::Totals;
use std::fmt::Display;
use std::io::{Read, Stdin};
use store::JOBS_MAX;
use text::TAB;

// The memory of which the first words and bytes are lent to the planner.
const TABLE_SIZE: usize = 16_384;

// The largest figure of a reading.
const FIGURE_MAX: usize = u32::MAX as usize;

// What ends each part of a case.
const FORM_FEED: u8 = 12;

type Table = [u32; TABLE_SIZE];

type Part = [u8; JOBS_MAX];

// The parts of a case.
#[derive(Clone, Copy)]
struct Case<'a> {
    note: &'a [u8],
    sheet: &'a [u8],
    levels: &'a [u8],
    numbers: &'a [u8],
}

// Writes bytes. Where they cannot be written, what is printed is not what is expected, which tells it.
fn print_bytes(out: &impl Print, bytes: &[u8]) {
    let _ = out.write_all(bytes);
}

// Writes a tab and the name of a job.
fn print_name(out: &impl Print, s: &[u8], i: usize) {
    print_bytes(out, b"\t");
    print_bytes(out, names::job_name(s, i));
}

// Writes refusal 0, line 0, field 0 and three figures; or a refusal's number, line and field, and three figures 0.
fn print_outcome<N: Display + Drop>(out: &impl Print, outcome: Result<[N; 3], Refusal>) {
    let _ = match outcome {
        Ok([a, b, c]) => print!(out; "\t0\t0\t0\t{a}\t{b}\t{c}"),
        Err(f) => print!(out; "\t{}\t{}\t{}\t0\t0\t0", f.number(), f.line(), f.field()),
    };
}

// Writes a tab and the part: a level as its digit, 9 for a byte that is not written.
fn print_part(out: &impl Print, part: &Part) {
    let digits = part.map(|level| level.wrapping_add(b'0'));
    print_bytes(out, b"\t");
    print_bytes(out, &digits);
}

// One figure for the whole table: each word counts once for each place from its own to the end. At most 2 ^ 60, so nothing wraps.
fn weigh(table: &Table) -> u64 {
    let mut sum: u64 = 0;
    let mut weighed: u64 = 0;
    for &word in table {
        sum = sum.wrapping_add(word as u64);
        weighed = weighed.wrapping_add(sum);
    }
    weighed
}

// The number in the field at place i of a part whose fields are parted by tabs, at most `most`; 0 where there is none, which is what
// every caller takes then.
fn number_in(s: &[u8], i: usize, most: usize) -> usize
    ensures { result ≤ most }
{
    let number = s.split(|b| *b == TAB).nth(i).and_then(numbers::read_number);
    number.map_or(0, |n| n.value).min(most as u64) as usize
}

// A figure of a reading.
fn figure_in(s: &[u8], i: usize) -> u32 {
    number_in(s, i, FIGURE_MAX) as u32
}

// The reading in the numbers of a case.
fn reading_in(s: &[u8]) -> Reading {
    Reading {
        done: figure_in(s, 2),
        level: figure_in(s, 3),
        time: figure_in(s, 4),
        energy: figure_in(s, 5),
        temperature: figure_in(s, 6),
    }
}

// Plans with the first words of a table of zeros and the first bytes of a part that holds no levels. Writes the planner's reply but
// for its peak, which document 01 leaves open, and what the whole table and part hold after it.
fn print_plan<F: FnOnce(&mut [u32], &mut [u8]) -> Result<Totals, Refusal>>(
    out: &impl Print,
    numbers: &[u8],
    plan: F,
)
    requires { F.IsAlwaysCallable plan }
{
    let mut table: Table = [0; TABLE_SIZE];
    let mut part: Part = [9; JOBS_MAX];
    let words = number_in(numbers, 0, TABLE_SIZE);
    let bytes = number_in(numbers, 1, JOBS_MAX);
    let reply = plan(&mut table[..words], &mut part[..bytes]);
    print_outcome(out, reply.map(|t| [t.time, t.energy, t.temperature]));
    print_part(out, &part);
    let _ = print!(out; "\t{}", weigh(&table));
}

// Writes the line of one case.
fn print_case(out: &impl Print, case: Case) {
    print_bytes(out, case.note);
    let margins = measure::measure(case.sheet, case.levels);
    print_outcome(out, margins.map(|m| [m.time, m.energy, m.temperature]));
    for i in [0, 1, JOBS_MAX] {
        print_name(out, case.sheet, i);
    }
    let reading = reading_in(case.numbers);
    print_plan(out, case.numbers, |table, part| {
        planner::plan(case.sheet, table, part)
    });
    print_plan(out, case.numbers, |table, part| {
        afresh::plan_afresh(case.sheet, reading, table, part)
    });
    print_bytes(out, b"\n");
}

// Takes the part that ends at the next form feed off a text.
fn take_part<'a>(text: &mut &'a [u8]) -> Option<&'a [u8]>
    ensures { IfSome result (λ _. length text.new.now < length text.old.now) }
{
    let all = *text;
    let end = all.iter().position(|b| *b == FORM_FEED)?;
    *text = &all[end + 1..];
    Some(&all[..end])
}

// Takes the next case off a text, if all of it is there.
fn take_case<'a>(text: &mut &'a [u8]) -> Option<Case<'a>>
    ensures { IfSome result (λ _. length text.new.now < length text.old.now) }
{
    let note = take_part(text)?;
    let sheet = take_part(text)?;
    let levels = take_part(text)?;
    let numbers = take_part(text)?;
    Some(Case {
        note,
        sheet,
        levels,
        numbers,
    })
}

// Reads until the input ends, reading fails or the buffer is full, and hands back how many bytes came: any number at a time, so that
// no range has the steps of the loop. Not as `read_sheet` of `plan`: a failed read ends the input, and what came is taken.
fn read_input(stdin: &mut Stdin, input: &mut [u8]) -> usize
    ensures { result ≤ length input.new }
{
    let mut n: usize = 0;
    while n < input.len() {
        match stdin.read(&mut input[n..]) {
            Ok(0) | Err(_) => break,
            Ok(count) => n += count,
        }
    }
    n
}

fn main(rt: HostRuntime) {
    let mut input = [0u8; 262144];
    let n = read_input(&mut rt.stdin(), &mut input);
    let mut rest = &input[..n];
    // Each case is taken off what is left, so that nothing is counted.
    while let Some(case) = take_case(&mut rest) {
        print_case(&rt, case);
    }
}
