//! A payment by its terms, and what it pays.
ghost use Rattle.std.specs.Prelude.{All, ◌≡◌, ◌<◌, ◌≤◌, ◌^◌, length, map};
ghost use Rattle.escrow_units.specs.Interest.{earned_of};
ghost use Rattle.escrow_units.specs.OpenDays.{IsBy2190};
ghost use Rattle.payment_schedule.specs.Schedule.{IsShort, due_on, flow_by, half_year_accrual, principal_by};

use arrayvec::ArrayVec;
use escrow_units::{
    AMOUNT_LIMIT, Accrual, Cents, ClosedDays, Day, Flow, GREATEST_RATE, Rate, earned,
};
use std::default::Default;

/// The part of a year that the interest of a half-year is for.
pub const HALF_YEAR: Accrual = Accrual { parts: 1, year: 2 };

/// A payment by its terms.
#[derive(Clone, Copy, Debug, PartialEq, Eq)]
pub struct ScheduledPayment {
    /// The day on which it falls.
    pub day: Day,
    /// The part of a year for which it bears interest.
    pub accrual: Accrual,
    /// Whether the principal is paid with it.
    pub principal: bool,
}

impl Default for ScheduledPayment {
    fn default() -> ScheduledPayment {
        ScheduledPayment {
            day: Day::default(),
            accrual: HALF_YEAR,
            principal: false,
        }
    }
}

impl ScheduledPayment {
    /// A security's payment of a date, which falls on the open day of that date. The date is up to 2190-12-31.
    pub fn due(
        closed: &ClosedDays,
        date: Day,
        accrual: Accrual,
        principal: bool,
    ) -> ScheduledPayment
        requires { IsBy2190 date }
        ensures { result ≡ due_on closed.now date accrual principal }
    {
        ScheduledPayment {
            day: closed.open_day(date),
            accrual,
            principal,
        }
    }

    /// What is paid back of an amount at par, in cents: all of it, or nothing.
    pub fn principal(&self, amount: Cents) -> Cents
        ensures value { result.0 ≡ principal_by self.now amount.0 }
        ensures most { result.0 ≤ amount.0 }
    {
        if self.principal { amount } else { Cents(0) }
    }

    // What an amount at par pays, as `flow` has it, by what a half-year earns.
    fn flow_beside(&self, half_year: Cents, rate: Rate, amount: Cents) -> Flow
        requires half_year { half_year.0 ≡ earned_of amount.0 rate.0 1 2 }
        requires bound { half_year.0 < 2 ^ 62 }
        requires rate { rate.0 ≤ GREATEST_RATE }
        requires amount { amount.0 ≤ AMOUNT_LIMIT }
        requires short { IsShort self.now.accrual }
        ensures { result ≡ flow_by rate.0 amount.0 self.now }
    {
        if self.accrual != HALF_YEAR {
            return self.flow(rate, amount);
        }
        Flow {
            day: self.day,
            cents: Cents(half_year.0 + self.principal(amount).0),
        }
    }

    /// What an amount at par pays: its interest at a rate of at most 30 percent, rounded to the cent, and the principal
    /// where it is due. The amount is at most 10^13 cents, and the payment bears interest for at most sixteen months. It reads
    /// no calendar.
    pub fn flow(&self, rate: Rate, amount: Cents) -> Flow
        requires rate { rate.0 ≤ GREATEST_RATE }
        requires amount { amount.0 ≤ AMOUNT_LIMIT }
        requires short { IsShort self.now.accrual }
        ensures { result ≡ flow_by rate.0 amount.0 self.now }
    {
        let interest = earned(amount, rate, self.accrual.parts, self.accrual.year);
        Flow {
            day: self.day,
            cents: Cents(interest.0 + self.principal(amount).0),
        }
    }
}

/// What an amount at par pays by a schedule of at most 84 payments, in its order, each as [`ScheduledPayment::flow`] says.
///
/// The rate is at most 30 percent, the amount at most 10^13 cents, and each payment bears interest for at most sixteen months.
/// It takes no memory.
pub fn scheduled_flows(
    schedule: &[ScheduledPayment],
    rate: Rate,
    amount: Cents,
) -> ArrayVec<Flow, 84>
    requires few { length schedule.now ≤ 84 }
    requires rate { rate.0 ≤ GREATEST_RATE }
    requires amount { amount.0 ≤ AMOUNT_LIMIT }
    requires short { All (λ payment. IsShort payment.accrual) schedule.now }
    ensures { result.items ≡ map (flow_by rate.0 amount.0) schedule.now }
{
    // Most payments are of a half-year, whose interest is counted once.
    let half_year = earned(amount, rate, HALF_YEAR.parts, HALF_YEAR.year);
    let mut flows = ArrayVec::new();
    for payment in schedule {
        flows.push(payment.flow_beside(half_year, rate, amount));
    }
    flows
}
