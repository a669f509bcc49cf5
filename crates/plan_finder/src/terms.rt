//! What units of a line cost and pay, by terms that are read once: no calendar is read again.
ghost use Rattle.std.specs.Prelude.{All, ◌≡◌, ◌*◌, ◌^◌, ◌<◌, ◌≤◌, ◌≤ℤ◌, ℕ, IfOk, length, map, sum_by};
ghost use Rattle.std.specs.List.{zip};
ghost use Rattle.escrow_units.specs.Calendar.{years_after_of};
ghost use Rattle.escrow_units.specs.SlgsTerms.{IsSettlement};
ghost use Rattle.fixed_powers.specs.DiscountPowers.{IsLowTable, PowerTable, one};
ghost use Rattle.offer_book.specs.Book.{IsLine};
ghost use Rattle.offer_book.specs.declared.payment_days.PaymentDays.{PaymentDays as Days};
ghost use Rattle.offer_book.specs.Portfolio.{line_payments};
ghost use Rattle.dual_bound.specs.Columns.{kind_power};
ghost use Rattle.plan_finder.specs.Ledger.{IsPurchase, IsTerms};

use arrayvec::ArrayVec;
use escrow_desk::NoMemory;
use escrow_units::{Accrual, Cents, Day, Flow, index360};
use fixed_powers::Powers;
use offer_book::{Line, LineKind, PaymentDays};
use payment_schedule::{ScheduledPayment, scheduled_flows};
use std::alloc::Global;

/// What a line costs and pays, by its terms.
#[derive(Drop)]
pub(crate) struct LineTerms {
    /// The part of a year for which interest has accrued.
    pub accrued: Accrual,
    /// The payments, in order of date.
    pub schedule: ArrayVec<ScheduledPayment, 84>,
    /// The discount factor of each payment's day, in units of 2^-62: 0 for opening cash, which the yield limit doesn't bind.
    pub powers: Vec<u64>,
}

/// What units of a line cost and pay.
#[derive(Drop)]
pub(crate) struct Purchase {
    /// What they cost.
    pub cost: Cents,
    /// What they pay, in order of date.
    pub payments: ArrayVec<Flow, 84>,
    /// What the payments are worth at the yield limit, in units of 2^-62 of a cent: nothing for opening cash.
    pub worth: u128,
}

// The discount factor of a day on which a kind of line pays.
fn power_on(settle: Day, powers: &Powers, kind: LineKind, day: Day) -> u64
    requires powers { IsLowTable powers.now }
    requires from { settle ≤ℤ day }
    requires to { day ≤ℤ years_after_of settle 40 }
    ensures value { result ≡ kind_power powers.now.yield_units settle kind day }
    ensures small { result ≤ one }
{
    match kind {
        LineKind::Cash => 0,
        LineKind::Security(_) | LineKind::Market(_) => powers.power(index360(settle, day)),
    }
}

// The discount factors of the days on which a line pays.
fn powers_of(
    alloc: Global,
    settle: Day,
    powers: &Powers,
    line: &Line,
    schedule: &[ScheduledPayment],
) -> Result<Vec<u64>, NoMemory>
    requires powers { IsLowTable powers.now }
    requires within { All (λ payment. (settle ≤ℤ payment.day) × (payment.day ≤ℤ years_after_of settle 40)) schedule.now }
    ensures value { IfOk result (λ factors. factors.items ≡ map (λ payment. kind_power powers.now.yield_units settle line.now.kind payment.day) schedule.now) }
    ensures small { IfOk result (λ factors. All (λ power. power ≤ one) factors.items) }
{
    let mut factors = Vec::new(alloc);
    for payment in schedule {
        factors.push(power_on(settle, powers, line.kind, payment.day))?;
    }
    Ok(factors)
}

// What cents are worth by a power, in units of 2^-62 of a cent.
fn worth_by(power: u64, cents: Cents) -> u128
    requires power { power ≤ one }
    requires cents { cents.0 ≤ 2 * 10 ^ 13 }
    ensures value { result ≡ cents.0 * power }
    ensures small { result ≤ one * (2 * 10 ^ 13) }
{
    u128::from(cents.0) * u128::from(power)
}

// What flows are worth by the powers of their days, in units of 2^-62 of a cent.
fn worth_of(powers: &[u64], flows: &[Flow]) -> u128
    requires powers { All (λ power. power ≤ one) powers.now }
    requires flows { All (λ flow. flow.cents.0 ≤ 2 * 10 ^ 13) flows.now }
    requires few { length flows.now ≤ 84 }
    ensures { result ≡ sum_by (λ p. p.1.cents.0 * p.0) (zip powers.now flows.now) }
{
    let mut worth = 0;
    for (power, flow) in powers.iter().zip(flows) {
        worth += worth_by(*power, flow.cents);
    }
    worth
}

impl LineTerms {
    /// The terms of a line of a book with these days, against the limit of the powers.
    ///
    /// # Errors
    ///
    /// Where memory ran out.
    pub(crate) fn make(
        alloc: Global,
        days: &PaymentDays,
        powers: &Powers,
        line: &Line,
    ) -> Result<LineTerms, NoMemory>
        requires settlement { IsSettlement days.now.settle }
        requires line { IsLine days.now line.now }
        requires powers { IsLowTable powers.now }
        ensures { IfOk result (IsTerms powers.now.yield_units days.now line.now) }
    {
        let schedule = line.schedule(days);
        let powers = powers_of(alloc, days.settle, powers, line, schedule.as_slice())?;
        Ok(LineTerms {
            accrued: line.accrued(),
            schedule,
            powers,
        })
    }

    /// What units of the line, at most its most, cost and pay.
    pub(crate) fn purchase(&self, line: &Line, units: u64) -> Purchase
        requires line { (days : Days) × IsLine days line.now }
        requires terms { (days : Days) × (n : ℕ) × IsTerms n days line.now self.now }
        requires units { units ≤ line.now.most }
        ensures { (days : Days) (n : ℕ) → IsLine days line.now → IsTerms n days line.now self.now → IsPurchase n days line.now units result }
    {
        let payments = scheduled_flows(self.schedule.as_slice(), line.rate(), line.par(units));
        let worth = worth_of(self.powers.as_slice(), payments.as_slice());
        Purchase {
            cost: line.cost_by(self.accrued, units),
            payments,
            worth,
        }
    }
}
