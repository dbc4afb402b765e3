#![tactic(auto)]

ghost use Rattle.std.specs.Prelude.{◌≡◌, ◌<◌, ◌^◌};
ghost use Rattle.std.proofs.Math.IntN.{sub_ℕ};

// One of the "three signed margins": a limit less what is used of it. "A negative margin is a broken limit, 0 is met."
pub fn margin(limit: u64, used: u64) -> i64
    requires { (limit < 2 ^ 63) × (used < 2 ^ 63) }
    ensures { result ≡ sub_ℕ limit used }
{
    limit as i64 - used as i64
}
