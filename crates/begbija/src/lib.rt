#![tactic(auto)]

// The calls that the logger's firmware links, exported to C.
ghost use Rattle.std.specs.Prelude.{◌≡◌, length};
ghost use Rattle.measure.specs.Measure.{measure_of};
ghost use Rattle.measure.specs.Meaning.{Meaning};
ghost use Rattle.frame.specs.Afresh.{reading};
ghost use Rattle.demands.specs.Order.{answer_of, afresh_of};
ghost use Rattle.reply.specs.Answer.{Answers};
ghost use Rattle.demands.specs.Demands.{Demands};
ghost use Rattle.demands.specs.Afresh.{AfreshDemands};
ghost use Rattle.need.specs.Need.{words_of};
ghost use Rattle.report.specs.Report.{answer_in, report_of, text_after};
ghost use Rattle.c_values.specs.Values.{minus, reply_in, figures_of, measured_in};
ghost use Rattle.begbija.specs.Begbija.{text_number, need_number, TextDemands};

use afresh::Reading;

// The bytes of plan text written, or minus the refusal.
#[unsafe(no_mangle)]
pub extern "C" fn begbija_plan_text(sheet: &[u8], text: &mut [u8]) -> i64
    ensures value { result ≡ text_number (report_of sheet.now (length text.old) (answer_in sheet.now)) }
    ensures text_after { text.new ≡ text_after sheet.now (answer_in sheet.now) text.old }
    ensures text_demands { TextDemands sheet.now (length text.old) text.new result }
{
    c_values::count_or_refusal(report::write_plan(sheet, text))
}

// 0 for a plan, or minus the refusal; the figures of either in `reply`.
#[unsafe(no_mangle)]
pub extern "C" fn begbija_plan(
    sheet: &[u8],
    table: &mut [u32],
    levels: &mut [u8],
    reply: &mut [u64; 7],
) -> i64
    ensures value { result ≡ minus (reply_in reply.new).refusal }
    ensures answers { Answers (answer_of sheet.now (length table.old) (length levels.old)) table.old table.new levels.old levels.new (reply_in reply.new) }
    ensures demands { Demands sheet.now (length table.old) (length levels.old) levels.new (reply_in reply.new) }
{
    let r = planner::plan(sheet, table, levels);
    c_values::put_reply(r, reply);
    c_values::count_or_refusal(r.and(Ok(0)))
}

// 0 for a plan of the jobs still to do after what is read, or minus the refusal; the figures of either in `reply`.
#[unsafe(no_mangle)]
pub extern "C" fn begbija_plan_afresh(
    sheet: &[u8],
    done: u32,
    level: u32,
    time: u32,
    energy: u32,
    temperature: u32,
    table: &mut [u32],
    levels: &mut [u8],
    reply: &mut [u64; 7],
) -> i64
    ensures value { result ≡ minus (reply_in reply.new).refusal }
    ensures answers { Answers (afresh_of sheet.now (reading done level time energy temperature) (length table.old) (length levels.old)) table.old table.new levels.old levels.new (reply_in reply.new) }
    ensures afresh_demands { AfreshDemands sheet.now (reading done level time energy temperature) (length table.old) (length levels.old) levels.new (reply_in reply.new) }
{
    let reading = Reading {
        done,
        level,
        time,
        energy,
        temperature,
    };
    let a = afresh::plan_afresh(sheet, reading, table, levels);
    c_values::put_reply(a, reply);
    c_values::count_or_refusal(a.and(Ok(0)))
}

// 0 for a list that was measured, or minus the refusal; the figures of either in `margins`.
#[unsafe(no_mangle)]
pub extern "C" fn begbija_measure(sheet: &[u8], levels: &[u8], margins: &mut [i64; 6]) -> i64
    ensures value { result ≡ minus (measure_of sheet.now levels.now).refusal }
    ensures margins_after { margins.new ≡ figures_of (measure_of sheet.now levels.now) }
    ensures meaning { Meaning sheet.now levels.now (measured_in margins.new) }
{
    let m = measure::measure(sheet, levels);
    c_values::put_margins(m, margins);
    c_values::count_or_refusal(m.and(Ok(0)))
}

// The words that a sheet needs, or minus its refusal of 1 to 6.
#[unsafe(no_mangle)]
pub extern "C" fn begbija_need(sheet: &[u8]) -> i64
    ensures { result ≡ need_number (words_of sheet.now) }
{
    c_values::count_or_refusal(need::count_words(sheet))
}
