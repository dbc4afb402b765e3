#![tactic(auto)]

ghost use Rattle.std.specs.Prelude.{◌≡◌};
ghost use Rattle.thermal.specs.Thermal.{steady_state, temperature_after, RuleDomain};

// The steady-state temperature of a voltage level: power in milliwatts, thermal resistance in millikelvins per watt.
pub fn steady_state(power: u32, resistance: u32) -> u64
    ensures { result ≡ steady_state power resistance }
{
    let product = power as u64 * resistance as u64;
    let upper = product / 10_000 + 1;
    // One less where the upper neighbour is odd: an exact half then goes to the lower one, and no other product is moved.
    (product + 5_000 - upper % 2) / 10_000
}

// The temperature after a job that starts at `temperature`, at a level of steady-state temperature `steady`. An inner
// call: 39,998 is the warmest that a raised temperature can be. Worked in 32 bits, as no sum that its definition divides is above
// 2,621,374,463.
pub fn temperature_after(temperature: u64, steady: u64, decay: u64) -> u64
    requires { RuleDomain temperature steady decay }
    ensures { result ≡ temperature_after temperature steady decay }
{
    let (temperature, steady, decay) = (temperature as u32, steady as u32, decay as u32);
    let sum = decay * temperature + (65_536 - decay) * steady;
    sum.div_ceil(65_536) as u64
}
