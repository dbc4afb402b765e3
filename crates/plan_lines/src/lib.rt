#![tactic(auto, using(writer::proofs::Written::moved))]

// The lines of plan text.
ghost use Rattle.std.specs.Prelude.{◌+◌, ◌≤◌, ◌<◌, length};
ghost use Rattle.name_lines.specs.Name.{name_max};
ghost use Rattle.writer.specs.Decimal.{number_end};
ghost use Rattle.writer.specs.Written.{Writes, Room};
ghost use Rattle.plan_lines.specs.Lines.{line_end, plan_line, job_line, refusal_line, line_end_max, plan_line_max, job_line_max, refusal_line_max};

use writer::Writer;

// Three numbers and the end of the line.
fn put_line_end(writer: &mut Writer, a: u64, b: u64, c: u64)
    requires { (a < number_end) × (b < number_end) × (c < number_end) × Room writer.old line_end_max }
    ensures wrote { Writes writer.old writer.new (line_end a b c) }
    ensures upper_bound { writer.new.at ≤ writer.old.at + line_end_max }
{
    writer.field(a);
    writer.field(b);
    writer.field(c);
    writer.byte(b'\n');
}

// The plan's P line. Figures come as plain numbers here and below: of a struct, a caller would fill three of a run's figures into another
// one, which is no plainer.
pub fn put_plan_line(writer: &mut Writer, jobs: u64, time: u64, energy: u64, temperature: u64)
    requires { (jobs < number_end) × (time < number_end) × (energy < number_end) × (temperature < number_end) × Room writer.old plan_line_max }
    ensures wrote { Writes writer.old writer.new (plan_line jobs time energy temperature) }
    ensures upper_bound { writer.new.at ≤ writer.old.at + plan_line_max }
{
    writer.byte(b'P');
    writer.field(jobs);
    put_line_end(writer, time, energy, temperature);
}

// A job's Q line.
pub fn put_job_line(
    writer: &mut Writer,
    name: &[u8],
    level: u64,
    time: u64,
    energy: u64,
    temperature: u64,
)
    requires { (level < number_end) × (time < number_end) × (energy < number_end) × (temperature < number_end) × (length name.now ≤ name_max) × Room writer.old job_line_max }
    ensures wrote { Writes writer.old writer.new (job_line name.now level time energy temperature) }
    ensures upper_bound { writer.new.at ≤ writer.old.at + job_line_max }
{
    writer.bytes(b"Q\t");
    writer.bytes(name);
    writer.field(level);
    put_line_end(writer, time, energy, temperature);
}

// The R line of a sheet that has no plan.
pub fn put_refusal_line(writer: &mut Writer, number: u64, line: u64, field: u64)
    requires { (number < number_end) × (line < number_end) × (field < number_end) × Room writer.old refusal_line_max }
    ensures wrote { Writes writer.old writer.new (refusal_line number line field) }
    ensures upper_bound { writer.new.at ≤ writer.old.at + refusal_line_max }
{
    writer.byte(b'R');
    put_line_end(writer, number, line, field);
}
