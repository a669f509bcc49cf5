//! Steps and powers of a factor.

ghost use Rattle.std.specs.Prelude.{◌≡◌, ◌≤◌, ◌*◌, ◌/◌, ◌^◌};
ghost use Rattle.std.specs.Int.{div_ceil};
ghost use Rattle.fixed_powers.specs.DiscountPowers.{one, down, up};

/// One, as a number of 62 fraction bits.
pub const ONE: u64 = 1 << 62;

// One multiplication, rounded down.
pub fn step_down(power: u64, factor: u64) -> u64
    requires power { power ≤ one }
    requires factor { factor ≤ one }
    ensures value { result ≡ power * factor / one }
    ensures within { result ≤ one }
{
    // Of numbers that are twice as great, the upper half of the product is the quotient.
    (((2 * power) as u128 * (2 * factor) as u128) >> 64) as u64
}

// One multiplication, rounded up.
pub fn step_up(power: u64, factor: u64) -> u64
    requires power { power ≤ one }
    requires factor { factor ≤ one }
    ensures value { result ≡ div_ceil (power * factor) one }
    ensures within { result ≤ one }
{
    (power as u128 * factor as u128).div_ceil(ONE as u128) as u64
}

// The power of a factor, rounded down at each step.
#[tactic(auto, unfolding(crate::specs::DiscountPowers::down))]
pub fn power_down(factor: u64, days: u32) -> u64
    requires { factor ≤ one }
    ensures value { result ≡ down factor days }
    ensures within { result ≤ one }
{
    let mut power = ONE;
    for _ in 0..days {
        power = step_down(power, factor);
    }
    power
}

// The power of a factor, rounded up at each step.
#[tactic(auto, unfolding(crate::specs::DiscountPowers::up))]
pub fn power_up(factor: u64, days: u32) -> u64
    requires { factor ≤ one }
    ensures value { result ≡ up factor days }
    ensures within { result ≤ one }
{
    let mut power = ONE;
    for _ in 0..days {
        power = step_up(power, factor);
    }
    power
}
