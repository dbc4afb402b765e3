#![tactic(auto)]

// Values as C gets them: the number that every call hands back, and the figures of the planner's reply and of the measuring call.
ghost use Rattle.std.specs.Prelude.{[], ◌∷◌, ◌≡◌, ◌<◌, ◌^◌, IfOk, IfErr};
ghost use Rattle.refusal.specs.Code.{number_of, line_of, field_of};
ghost use Rattle.reply.specs.Reply.{reply_by};
ghost use Rattle.measure.specs.Measure.{measured_by};
ghost use Rattle.c_values.specs.Values.{number_by, reply_in, figures_of};

use measure::Margins;
use refusal::Refusal;
use reply::Totals;

// A refusal's number, line and field. Nothing here is copied into each call: the archive's code has a bound.
#[inline(never)]
fn numbers_of(f: Refusal) -> [u64; 3]
    ensures { result ≡ number_of f ∷ line_of f ∷ field_of f ∷ [] }
{
    [f.number() as u64, f.line() as u64, f.field() as u64]
}

// The signed number of every call.
#[inline(never)]
pub fn count_or_refusal(r: Result<usize, Refusal>) -> i64
    requires { IfOk r (λ count. count < 2 ^ 63) }
    ensures { result ≡ number_by r }
{
    match r {
        Ok(count) => count as i64,
        Err(f) => {
            let [number, _, _] = numbers_of(f);
            -(number as i64)
        }
    }
}

// Writes the planner's reply for C.
#[inline(never)]
pub fn put_reply(r: Result<Totals, Refusal>, reply: &mut [u64; 7])
    ensures { reply_in reply.new ≡ reply_by r }
{
    match r {
        Ok(t) => *reply = [0, 0, 0, t.time, t.energy, t.temperature, t.peak],
        Err(f) => {
            let [number, line, field] = numbers_of(f);
            *reply = [number, line, field, 0, 0, 0, 0];
        }
    }
}

// Writes what the measuring call says for C. Apart from `put_reply`: these figures are signed, and there are six, not seven.
#[inline(never)]
pub fn put_margins(m: Result<Margins, Refusal>, margins: &mut [i64; 6])
    requires { IfErr m (λ f. (line_of f < 2 ^ 63) × (field_of f < 2 ^ 63)) }
    ensures { margins.new ≡ figures_of (measured_by m) }
{
    match m {
        Ok(k) => *margins = [0, 0, 0, k.time, k.energy, k.temperature],
        Err(f) => {
            let [number, line, field] = numbers_of(f);
            *margins = [number as i64, line as i64, field as i64, 0, 0, 0];
        }
    }
}
