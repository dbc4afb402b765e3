#![tactic(auto)]

ghost use Rattle.std.specs.Prelude.{◌≡◌, length};
ghost use Rattle.run.specs.Run.{state_of};
ghost use Rattle.reply.specs.Reply.{reply_by};
ghost use Rattle.reply.specs.Answer.{Answers};
ghost use Rattle.demands.specs.Order.{answer_for, afresh_for, answer_handed, answer_of};
ghost use Rattle.demands.specs.Demands.{Demands};

use refusal::Refusal;
use reply::Totals;
use run::Run;
use store::{ReadSheet, Store};

// Plans the jobs left from `start` on, of a sheet that was read, or hands on its refusal: levels to `part`, least times to `table`.
pub fn plan_left(
    read: Result<ReadSheet, Refusal>,
    start: Run,
    table: &mut [u32],
    part: &mut [u8],
) -> Result<Totals, Refusal>
    requires { start.peak ≡ 0 }
    ensures { Answers (answer_handed read.entry (λ s. afresh_for s (state_of start) (length table.old) (length part.old))) table.old table.new part.old part.new (reply_by result) }
{
    let sheet = read?;
    let frame = need::frame_of(sheet.head);
    let need = need::need_of(frame);
    let left = sheet.head.jobs.saturating_sub(start.done) as usize;
    checks::check_memory(need, left, table.len(), part.len())?;
    checks::check_reading(sheet.head, start)?;
    solve::solve(frame, sheet.store, start, table, part)
}

// The same of a sheet's own frame, from its start.
pub fn plan_read(
    read: Result<ReadSheet, Refusal>,
    table: &mut [u32],
    part: &mut [u8],
) -> Result<Totals, Refusal>
    ensures { Answers (answer_handed read.entry (λ s. answer_for s (length table.old) (length part.old))) table.old table.new part.old part.new (reply_by result) }
{
    let start = step::start_of(read?.head);
    plan_left(read, start, table, part)
}

// Plans a sheet: levels to `part`, least times to `table`.
pub fn plan(s: &[u8], table: &mut [u32], part: &mut [u8]) -> Result<Totals, Refusal>
    ensures answers { Answers (answer_of s.now (length table.old) (length part.old)) table.old table.new part.old part.new (reply_by result) }
    ensures demands { Demands s.now (length table.old) (length part.old) part.new (reply_by result) }
{
    let mut store = Store::clear();
    // A `match`: a closure to `map` by would need a contract of its own, that head and store are what was read.
    let read = match sheet::read(s, &mut store) {
        Ok(head) => Ok(ReadSheet {
            head,
            store: &store,
        }),
        Err(refusal) => Err(refusal),
    };
    plan_read(read, table, part)
}
