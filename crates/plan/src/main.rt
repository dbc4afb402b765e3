#![tactic(auto)]

// Reads a sheet from standard input and prints its plan or its refusal; where either cannot be done, it says so on standard error.
ghost use Rattle.std.specs.Prelude.{◌≤◌, length};
ghost use Rattle.plan.specs.Input.{Within, More};

use plan_text::TEXT_LEAST;
use std::io;
use std::io::{Read, Stdin};

// Reads once, to place n of the buffer; 0 bytes are the input's end. Apart from the loop and with the whole buffer, so that a clause says
// that what came before stays: of `&mut sheet[n..]` alone none could say it.
fn read_more(stdin: &mut Stdin, sheet: &mut [u8], n: usize) -> io::Result<usize>
    requires { n ≤ length sheet.old }
    ensures { More sheet.old sheet.new n result }
{
    stdin.read(&mut sheet[n..])
}

// Reads until the input ends or the buffer is full: a pipe hands its bytes over in pieces, as long as it likes, so that no range has
// the steps of the loop. Not as `read_input` of `cases`: a failed read is told. The library's `read_to_end` would ask for a heap, which
// nothing here has.
fn read_sheet(stdin: &mut Stdin, sheet: &mut [u8]) -> io::Result<usize>
    ensures { Within 0 result sheet.new }
{
    let mut n: usize = 0;
    while n < sheet.len() {
        let count = read_more(stdin, sheet, n)?;
        if count == 0 {
            break;
        }
        n += count;
    }
    Ok(n)
}

// Says on standard error what cannot be done. Where that cannot be written either, nothing is left to tell.
fn complain(rt: &impl Eprint, line: &str) {
    let _ = rt.eprintln(line);
}

// Prints the plan or the refusal of a sheet.
fn print_plan(rt: &(impl Print + Eprint), sheet: &[u8]) {
    let mut text = [0u8; TEXT_LEAST];
    let size = printout::put_printout(sheet, &mut text);
    if rt.write_all(&text[..size]).is_err() {
        complain(rt, "plan: standard output cannot be written");
    }
}

// The first 20,481 bytes tell what is printed, however long the input is: `cut_same` in crates/printout/proofs/Cut.antt.
fn main(rt: HostRuntime) {
    let mut sheet = [0u8; 20481];
    match read_sheet(&mut rt.stdin(), &mut sheet) {
        Ok(n) => print_plan(&rt, &sheet[..n]),
        Err(_) => complain(&rt, "plan: standard input cannot be read"),
    }
}
