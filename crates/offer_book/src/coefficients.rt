//! What a unit of a line costs and pays, scaled and rounded outward.

ghost use Rattle.std.specs.Prelude.{All, ◌≡◌, ◌*◌, ◌/◌, ◌^◌, ◌<◌, ◌≤◌, length, map};
ghost use Rattle.std.specs.Int.{div_ceil};
ghost use Rattle.market_notes.specs.NoteTerms.{IsNote};
ghost use Rattle.payment_schedule.specs.Schedule.{IsShort};
ghost use Rattle.offer_book.specs.ScaledInterest.{IsInterest};
ghost use Rattle.offer_book.specs.Coefficients.{CoefficientsEnclose, interest_slack as interest_slack_of, kind_costs, pay_by};
ghost use Rattle.offer_book.specs.declared.line.LineKind.TheVariants.{Cash, Market};

use arrayvec::ArrayVec;
use escrow_units::{Accrual, Cents, Day, GREATEST_RATE, Rate};
use market_notes::{Note, accrual};
use payment_schedule::ScheduledPayment;

/// By how much coefficients are scaled: a cent has so many parts.
pub const COEFFICIENT_SCALE: u64 = 1_000_000_000;

/// What one unit of a line pays on a day, times [`COEFFICIENT_SCALE`].
///
/// At x units, the scale times what is paid, in cents, lies from `low * x - slack` to `high * x + slack`.
#[derive(Clone, Copy, Debug, Default, PartialEq, Eq)]
pub struct PayCoefficients {
    /// The day.
    pub day: Day,
    /// What is paid exactly, rounded down.
    pub low: u128,
    /// What is paid exactly, rounded up.
    pub high: u128,
    /// What rounding to the cent can add or take away, over all units at once.
    pub slack: u128,
}

/// What one unit of a line costs and pays, times [`COEFFICIENT_SCALE`].
///
/// At x units, the scale times the cost, in cents, lies from `cost_low * x - cost_slack` to `cost_high * x + cost_slack`.
#[derive(Clone, Debug, Drop)]
pub struct Coefficients {
    /// The exact cost, rounded down.
    pub cost_low: u128,
    /// The exact cost, rounded up.
    pub cost_high: u128,
    /// What rounding to the cent can add or take away, over all units at once.
    pub cost_slack: u128,
    /// The payments, in order of date.
    pub pays: ArrayVec<PayCoefficients, 84>,
}

/// What one unit of a line costs, times [`COEFFICIENT_SCALE`].
///
/// At x units, the scale times the cost, in cents, lies from `low * x - slack` to `high * x + slack`.
#[derive(Clone, Copy)]
pub struct ScaledCost {
    /// The exact cost, rounded down.
    pub low: u128,
    /// The exact cost, rounded up.
    pub high: u128,
    /// What rounding to the cent can add or take away, over all units at once.
    pub slack: u128,
}

/// A quotient times the scale, rounded down and up.
#[derive(Clone, Copy)]
pub(crate) struct Scaled {
    low: u128,
    high: u128,
}

// The scale times a quotient.
fn scaled_quotient(dividend: u128, divisor: u128) -> Scaled
    requires some { 0 < divisor }
    requires room { dividend < 2 ^ 62 }
    ensures low { result.low ≡ COEFFICIENT_SCALE * dividend / divisor }
    ensures high { result.high ≡ div_ceil (COEFFICIENT_SCALE * dividend) divisor }
    ensures low_bound { result.low < 2 ^ 93 }
    ensures high_bound { result.high < 2 ^ 93 }
{
    let parts = COEFFICIENT_SCALE as u128 * dividend;
    Scaled {
        low: parts / divisor,
        high: parts.div_ceil(divisor),
    }
}

// The scale times the interest of an accrual on a step.
fn scaled_interest(step: Cents, rate: Rate, accrual: Accrual) -> Scaled
    requires step { step.0 ≤ 10 ^ 8 }
    requires rate { rate.0 ≤ GREATEST_RATE }
    requires parts { accrual.parts ≤ 732 }
    requires year { 0 < accrual.year }
    ensures { IsInterest step.0 rate.0 accrual result }
{
    scaled_quotient(
        step.0 as u128 * rate.0 as u128 * accrual.parts as u128,
        100_000 * accrual.year as u128,
    )
}

// The slack of interest: it is rounded to the cent once, by at most half a cent; where there is no rate there is none.
fn interest_slack(rate: Rate) -> u128
    ensures { result ≡ interest_slack_of rate.0 }
{
    if rate.0 == 0 {
        0
    } else {
        COEFFICIENT_SCALE as u128 / 2
    }
}

impl PayCoefficients {
    /// What one unit pays by a payment, scaled and rounded outward: its interest, and the principal exactly.
    ///
    /// The rate is at most 30 percent, and the unit at most 10^8 cents at par; the payment bears interest for at most sixteen
    /// months. It reads no calendar.
    pub fn of(payment: &ScheduledPayment, rate: Rate, step: Cents) -> PayCoefficients
        requires rate { rate.0 ≤ GREATEST_RATE }
        requires step { step.0 ≤ 10 ^ 8 }
        requires short { IsShort payment.now.accrual }
        ensures { result ≡ pay_by rate.0 step.0 payment.now }
    {
        let interest = scaled_interest(step, rate, payment.accrual);
        let principal = COEFFICIENT_SCALE as u128 * payment.principal(step).0 as u128;
        PayCoefficients {
            day: payment.day,
            low: interest.low + principal,
            high: interest.high + principal,
            slack: interest_slack(rate),
        }
    }
}

/// What one unit pays by a schedule, in its order.
pub(crate) fn pays_of(
    schedule: &[ScheduledPayment],
    rate: Rate,
    step: Cents,
) -> ArrayVec<PayCoefficients, 84>
    requires few { length schedule.now ≤ 84 }
    requires rate { rate.0 ≤ GREATEST_RATE }
    requires step { step.0 ≤ 10 ^ 8 }
    requires short { All (λ payment. IsShort payment.accrual) schedule.now }
    ensures { result.items ≡ map (pay_by rate.0 step.0) schedule.now }
{
    let mut pays = ArrayVec::new();
    for payment in schedule {
        pays.push(PayCoefficients::of(payment, rate, step));
    }
    pays
}

/// What a step costs that costs its amount at par: of opening cash, and of a SLGS security.
pub(crate) fn cost_at_par(step: Cents) -> ScaledCost
    requires { step.0 ≤ 10 ^ 8 }
    ensures { kind_costs Cash step.0 ≡ record { low = result.low; high = result.high; slack = result.slack } }
{
    let scaled = COEFFICIENT_SCALE as u128 * step.0 as u128;
    ScaledCost {
        low: scaled,
        high: scaled,
        slack: 0,
    }
}

/// What a step of a note costs: its price and its accrued interest.
pub(crate) fn scaled_note_cost(note: &Note, step: Cents) -> ScaledCost
    requires note { IsNote note.now }
    requires step { step.0 ≤ 10 ^ 8 }
    ensures { kind_costs (Market note.now) step.0 ≡ record { low = result.low; high = result.high; slack = result.slack } }
{
    let price = scaled_quotient(step.0 as u128 * note.price.0 as u128, 10_000_000_000);
    let accrued = scaled_interest(step, note.coupon, accrual(note));
    ScaledCost {
        low: price.low + accrued.low,
        high: price.high + accrued.high,
        slack: COEFFICIENT_SCALE as u128,
    }
}

/// What the coefficients of a line are for: for every number of units they lie on both sides of the scale times the exact
/// cost, and of the scale times each exact payment.
pub fn coefficient_laws()
    ensures { CoefficientsEnclose }
{}
