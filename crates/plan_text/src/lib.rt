#![tactic(auto, using(writer::proofs::Written::moved))]

ghost use Rattle.std.specs.Prelude.{◌+◌, ◌*◌, ◌≤◌, length, take};
ghost use Rattle.frame.specs.Run.{start};
ghost use Rattle.store.specs.Sheet.{sheet_read};
ghost use Rattle.step.specs.Store.{Stored};
ghost use Rattle.name_places.specs.Place.{next_name};
ghost use Rattle.names.specs.Name.{name_of};
ghost use Rattle.writer.specs.Written.{Wrote, Writes, Room};
ghost use Rattle.plan_lines.specs.Lines.{job_line, job_line_max};
ghost use Rattle.plan_text.specs.Text.{text_least, job_text_from, plan_text};
ghost use Rattle.plan_text.specs.Handed.{Ended, Handed};

use run::Run;
use step::Figures;
use store::ReadSheet;
use writer::Writer;

// "part under m bytes (text: under 4,096)" is refused: no plan's text is longer.
pub const TEXT_LEAST: usize = 4_096;

// Writes the Q line of a job that ends in `run`; the text starts with its J line.
fn put_job(t: &[u8], writer: &mut Writer, run: Run)
    requires { Ended t.now writer.old run }
    ensures wrote { Writes writer.old writer.new (job_line (next_name t.now) run.level run.time run.energy run.temperature) }
    ensures upper_bound { writer.new.at ≤ writer.old.at + job_line_max }
{
    let name = name_places::name_on(t);
    let level = run.level as u64;
    plan_lines::put_job_line(writer, name, level, run.time, run.energy, run.temperature);
}

// Writes the Q lines of a list of levels, with the figures of the sheet.
fn put_jobs(s: &[u8], sheet: ReadSheet, figures: &Figures, levels: &[u8], writer: &mut Writer)
    requires { record {
      handed : Handed s.now sheet levels.now;
      stored : Stored (sheet_read sheet) figures.now.store.now figures.now.steady;
      room : Room writer.old (sheet.head.jobs * job_line_max);
    } }
    ensures wrote { let q = sheet_read sheet.entry in Writes writer.old writer.new (job_text_from (name_of s.now) q 0 (start q) (take q.jobs levels.now)) }
    ensures upper_bound { writer.new.at ≤ writer.old.at + sheet.entry.head.jobs * job_line_max }
{
    let l = sheet.head.levels as usize;
    let mut run = step::start_of(sheet.head);
    let mut rest = name_places::skip_lines(s, names::lines_before(l, 0));
    for &level in &levels[..sheet.head.jobs as usize] {
        run = figures.next_job(run, level as u32);
        put_job(rest, writer, run);
        rest = name_places::skip_lines(rest, names::job_lines(l));
    }
}

// Writes the text of a list of levels on a sheet that was read: the P line of its figures, and a Q line for each job.
pub fn put_plan(s: &[u8], sheet: ReadSheet, levels: &[u8], text: &mut [u8]) -> usize
    requires { record { handed : Handed s.now sheet levels.now; room : text_least ≤ length text.old } }
    ensures wrote { let q = sheet_read sheet.entry in Wrote text.old 0 (plan_text s.now q (take q.jobs levels.now)) text.new result }
    ensures upper_bound { result ≤ text_least }
{
    let figures = Figures::of(sheet);
    let first = step::start_of(sheet.head);
    let last = figures.run_levels(first, &levels[..sheet.head.jobs as usize]);
    let jobs = sheet.head.jobs as u64;
    let mut writer = Writer { part: text, at: 0 };
    plan_lines::put_plan_line(&mut writer, jobs, last.time, last.energy, last.temperature);
    put_jobs(s, sheet, &figures, levels, &mut writer);
    writer.at
}
