//! The rules of subscriptions.
ghost use Rattle.std.specs.Prelude.{◌≡◌, ◌↔◌, ◌⊎◌, IsTrue, IfOk, IfErr, OnOk, IfSome, pos, ◌+ℤ◌, ◌≤ℤ◌, ◌<ℤ◌};
ghost use Rattle.escrow_units.specs.Calendar.{IsBaseDay, years_after_of};
ghost use Rattle.escrow_units.specs.SlgsTerms.{IsFirstInterest, IsFirstPayment, IsOfKind, IsSettlement, IsSlgs, shortest_term};
ghost use Rattle.slgs_rules.specs.Classification.{classified};
ghost use Rattle.slgs_rules.specs.TermRules.{HasRate, IsAnswer, IsEarliestFrom, IsFirstOfKind, IsNameable, IsNamedOrEarliest, IsWithinTable, rate_of};

use crate::fault::RuleFault;
use escrow_units::{
    AskedRate, Day, FIRST_WAIT, Rate, Slgs, SlgsKind, StepRule, dates_beside, years_after,
};

// The rate that the security would bear.
fn borne_rate(asked: AskedRate, most: Option<Rate>) -> Result<Rate, RuleFault>
    ensures rate { IfOk result (λ rate. rate ≡ rate_of asked most) }
    ensures has_rate { OnOk result (HasRate asked most) }
    ensures within { OnOk result (IsWithinTable asked most) }
    ensures fault { IfErr result (λ fault. ((fault ≡ RuleFault.NoRate) × ¬ (HasRate asked most))
        ⊎ ((fault ≡ RuleFault.RateAboveTable) × HasRate asked most × ¬ (IsWithinTable asked most))) }
{
    match (asked, most) {
        (AskedRate::Max, None) => Err(RuleFault::NoRate),
        (AskedRate::Max, Some(most)) => Ok(most),
        (AskedRate::At(rate), None) if rate.0 == 0 => Ok(rate),
        (AskedRate::At(_), None) => Err(RuleFault::NoRate),
        (AskedRate::At(rate), Some(most)) if rate.0 > most.0 => Err(RuleFault::RateAboveTable),
        (AskedRate::At(rate), Some(_)) => Ok(rate),
    }
}

// Whether maturity comes late enough for a security that bears this rate.
fn is_long_enough(settle: Day, maturity: Day, rate: Rate) -> bool
    requires { IsSettlement settle }
    ensures { IsTrue result ↔ (settle +ℤ pos (shortest_term rate.0)) ≤ℤ maturity }
{
    let fewest = if rate.0 == 0 { 15 } else { 30 };
    maturity.number() >= settle.number() + fewest
}

// The kind of a security, by its length.
fn kind_of(settle: Day, maturity: Day) -> SlgsKind
    requires { IsSettlement settle }
    ensures { IsOfKind result settle maturity }
{
    if maturity <= years_after(settle, 1) {
        SlgsKind::Certificate
    } else if maturity <= years_after(settle, 10) {
        SlgsKind::Note
    } else {
        SlgsKind::Bond
    }
}

// The earliest date of the series that is not before a day of the 40 years up to maturity.
fn earliest_date(maturity: Day, from: Day) -> Day
    requires base { IsBaseDay maturity }
    requires from { IsBaseDay from }
    requires order { from ≤ℤ maturity }
    requires near { maturity <ℤ (from +ℤ pos 14_640) }
    ensures { IsEarliestFrom maturity from result }
{
    let day_before = Day::new(from.number() - 1);
    dates_beside(maturity, StepRule::SameDay, day_before).next
}

// The first day on which a note or bond may pay interest.
fn interest_start(settle: Day) -> Day
    requires { IsSettlement settle }
    ensures { result ≡ settle +ℤ pos FIRST_WAIT }
{
    Day::new(settle.number() + FIRST_WAIT as i32)
}

// Whether a day is at least 30 days and at most one year after settlement.
fn is_in_first_year(settle: Day, day: Day) -> bool
    requires { IsSettlement settle }
    ensures { IsTrue result ↔ (((settle +ℤ pos FIRST_WAIT) ≤ℤ day) × (day ≤ℤ years_after_of settle 1)) }
{
    day >= interest_start(settle) && day <= years_after(settle, 1)
}

// Whether a note or bond may first pay interest on a day.
fn is_first_interest(settle: Day, maturity: Day, first: Day) -> bool
    requires settlement { IsSettlement settle }
    requires longer { years_after_of settle 1 <ℤ maturity }
    requires most { maturity ≤ℤ years_after_of settle 40 }
    ensures { IsTrue result ↔ IsFirstInterest settle maturity first }
{
    is_in_first_year(settle, first) && earliest_date(maturity, first) == first
}

// When a note or bond first pays interest: on the day that is named, or as early as it may.
fn first_interest(settle: Day, maturity: Day, named: Option<Day>) -> Result<Day, RuleFault>
    requires settlement { IsSettlement settle }
    requires longer { years_after_of settle 1 <ℤ maturity }
    requires most { maturity ≤ℤ years_after_of settle 40 }
    ensures first { IfOk result (IsNamedOrEarliest settle maturity named) }
    ensures kept { OnOk result (IfSome named (IsNameable settle maturity)) }
    ensures fault { IfErr result (λ fault. (fault ≡ RuleFault.FirstDate) × ¬ (IfSome named (IsNameable settle maturity))) }
{
    match named {
        None => Ok(earliest_date(maturity, interest_start(settle))),
        Some(first) if is_first_interest(settle, maturity, first) => Ok(first),
        Some(_) => Err(RuleFault::FirstDate),
    }
}

// The first payment date of a security of a kind.
fn first_payment(
    settle: Day,
    maturity: Day,
    kind: SlgsKind,
    named: Option<Day>,
) -> Result<Day, RuleFault>
    requires settlement { IsSettlement settle }
    requires most { maturity ≤ℤ years_after_of settle 40 }
    requires kind { IsOfKind kind settle maturity }
    ensures first { IfOk result (IsFirstOfKind kind settle maturity named) }
    ensures kept { OnOk result (IfSome named (IsNameable settle maturity)) }
    ensures fault { IfErr result (λ fault. (fault ≡ RuleFault.FirstDate) × ¬ (IfSome named (IsNameable settle maturity))) }
{
    match kind {
        SlgsKind::Certificate => match named {
            None => Ok(maturity),
            Some(_) => Err(RuleFault::FirstDate),
        },
        SlgsKind::Note | SlgsKind::Bond => first_interest(settle, maturity, named),
    }
}

/// The security that a subscriber gets who asks for this settlement, maturity and rate (31 CFR part 344).
///
/// `first` is the first payment date where one is named, and `most` the greatest rate of the daily table at that
/// maturity, where the table has one. Settlement is from 2000-01-01 to 2150-01-01; maturity may be any day.
///
/// The faults are tried in this order. `NoRate`: there is no `most`, and the asked rate isn't 0. `RateAboveTable`: the
/// asked rate exceeds `most`. `TooShort`: maturity comes less than 30 days after settlement, or less than 15 where the
/// rate is 0. `TooLong`: it comes more than 40 years after settlement. `FirstDate`: `first` is given for a certificate, or
/// for a note or bond and isn't a date of its series that is at least 30 days and at most one year after settlement.
///
/// A certificate runs up to one year and pays at maturity, a note up to ten years, a bond longer. A note or bond for which
/// no first payment date is named first pays on the earliest date of its series that is at least 30 days after
/// settlement, which is within one year of settlement.
pub fn classify(
    settle: Day,
    maturity: Day,
    rate: AskedRate,
    first: Option<Day>,
    most: Option<Rate>,
) -> Result<Slgs, RuleFault>
    requires { IsSettlement settle }
    ensures answer { IsAnswer (record { settle = settle; maturity = maturity; rate = rate; first = first; most = most }) result }
    ensures value { result ≡ classified (record { settle = settle; maturity = maturity; rate = rate; first = first; most = most }) }
    ensures terms { IfOk result IsSlgs }
{
    let rate = borne_rate(rate, most)?;
    if !is_long_enough(settle, maturity, rate) {
        return Err(RuleFault::TooShort);
    }
    if maturity > years_after(settle, 40) {
        return Err(RuleFault::TooLong);
    }
    let kind = kind_of(settle, maturity);
    let first = first_payment(settle, maturity, kind, first)?;
    Ok(Slgs {
        settle,
        maturity,
        rate,
        kind,
        first,
    })
}
