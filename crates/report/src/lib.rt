#![tactic(auto)]

ghost use Rattle.std.specs.Prelude.{◌≡◌, ◌≤◌, length, IfOk};
ghost use Rattle.plan_text.specs.Text.{text_least};
ghost use Rattle.report.specs.Report.{answer_in, report_by, report_of, text_after};

use plan_text::TEXT_LEAST;
use refusal::Refusal;
use store::{JOBS_MAX, ReadSheet, Store};

// Plans a sheet with a table of its own, and writes the plan's text: its length. The part is tested after 8 and before 10.
pub fn write_plan(s: &[u8], text: &mut [u8]) -> Result<usize, Refusal>
    ensures value { report_by result ≡ report_of s.now (length text.old) (answer_in s.now) }
    ensures text_after { text.new ≡ text_after s.now (answer_in s.now) text.old }
    ensures length_le_text_least { IfOk result (λ n. n ≤ text_least) }
{
    let mut table = [0u32; 16384];
    let mut levels = [0u8; JOBS_MAX];
    let mut store = Store::clear();
    let head = sheet::read(s, &mut store)?;
    let sheet = ReadSheet {
        head,
        store: &store,
    };
    let plan = planner::plan_read(Ok(sheet), &mut table, &mut levels);
    if text.len() < TEXT_LEAST {
        return Err(match plan {
            Err(f) if f.number() < Refusal::PartShort.number() => f,
            _ => Refusal::PartShort,
        });
    }
    plan?;
    Ok(plan_text::put_plan(s, sheet, &levels, text))
}
