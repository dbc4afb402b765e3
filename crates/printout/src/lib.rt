#![tactic(auto)]

ghost use Rattle.std.specs.Prelude.{◌≤◌};
ghost use Rattle.writer.specs.Written.{Wrote};
ghost use Rattle.plan_text.specs.Text.{text_least};
ghost use Rattle.printout.specs.Printout.{printout};

use plan_text::TEXT_LEAST;
use writer::Writer;

// Writes what `plan` prints for a sheet: the plan's text, or an R line.
pub fn put_printout(s: &[u8], text: &mut [u8; TEXT_LEAST]) -> usize
    ensures wrote { Wrote text.old 0 (printout s.now) text.new result }
    ensures upper_bound { result ≤ text_least }
{
    match report::write_plan(s, text) {
        Ok(length) => length,
        Err(f) => {
            let line = f.line() as u64;
            let field = f.field() as u64;
            let mut writer = Writer { part: text, at: 0 };
            plan_lines::put_refusal_line(&mut writer, f.number() as u64, line, field);
            writer.at
        }
    }
}
