//! The payments of a security.
ghost use Rattle.std.specs.Prelude.{All, ◌≡◌, ◌^◌, ◌≤◌, map};
ghost use Rattle.escrow_units.specs.Flows.{ComeInOrder, EndsOn, FallOnOpenDays};
ghost use Rattle.escrow_units.specs.OpenDays.{IsBy2190, open_day};
ghost use Rattle.escrow_units.specs.SlgsTerms.{IsSettlement, IsSlgs};
ghost use Rattle.payment_schedule.specs.Schedule.{IsShort, flow_by};
ghost use Rattle.slgs_interest.specs.PaymentLaws.{AreSmall, AreWithinTerm, EarnLittle, KeepAmounts, PayEqualInterest, PayFaceAlone, PayPrincipalOnce};
ghost use Rattle.slgs_interest.specs.Payments.{before_first, first_accrual_of, payment_dates, payment_on as payment_on_of, slgs_schedule};

use crate::interest::accrual_by;
use arrayvec::ArrayVec;
use escrow_units::{
    Accrual, Cents, ClosedDays, Day, Flow, GREATEST_RATE, SeriesDates, Slgs, StepRule,
    series_around,
};
use payment_schedule::{HALF_YEAR, ScheduledPayment, scheduled_flows};

/// The dates of a security's series around the day before its first payment: it pays on those after.
pub(crate) fn dates_of(slgs: &Slgs) -> SeriesDates
    requires settlement { IsSettlement slgs.now.settle }
    requires terms { IsSlgs slgs.now }
    ensures dates { result.after.items ≡ payment_dates slgs.now }
    ensures before { result.previous ≡ before_first slgs.now }
    ensures by { All IsBy2190 result.after.items }
{
    let day_before = Day::new(slgs.first.number() - 1);
    series_around(slgs.maturity, StepRule::SameDay, day_before)
}

// The payment of a date, by the accrual to the first.
fn payment_on(slgs: &Slgs, closed: &ClosedDays, date: Day, first: Accrual) -> ScheduledPayment
    requires by { IsBy2190 date }
    requires first { first ≡ first_accrual_of slgs.now }
    ensures { result ≡ payment_on_of slgs.now closed.now date }
{
    let accrual = if date == slgs.first { first } else { HALF_YEAR };
    ScheduledPayment::due(closed, date, accrual, date == slgs.maturity)
}

/// The payments of a SLGS security by their terms, in order of date.
///
/// A certificate pays once, at maturity: the principal, and interest by days of a year of 365 days, or of 366 where a
/// 29 February lies after settlement and not after maturity. A note or bond pays interest on its first payment date, for its
/// days of the half-year in which it settles, or for a half-year and its days of the half-year before that; on each later date
/// of its series half a year's interest; and the principal at maturity. Kinds and semiannual interest are those of 31 CFR part
/// 344, the basis and the first periods this project's own.
///
/// Each payment falls on the open day of its date; its interest is counted by dates all the same.
///
/// Settlement is from 2000-01-01 to 2150-01-01, and the security keeps the terms of SLGS securities; then each payment bears
/// interest for at most sixteen months.
pub fn schedule(slgs: &Slgs, closed: &ClosedDays) -> ArrayVec<ScheduledPayment, 84>
    requires settlement { IsSettlement slgs.now.settle }
    requires terms { IsSlgs slgs.now }
    ensures value { result.items ≡ slgs_schedule slgs.now closed.now }
    ensures short { All (λ payment. IsShort payment.accrual) result.items }
{
    let dates = dates_of(slgs);
    let first = accrual_by(slgs, &dates);
    let mut schedule = ArrayVec::new();
    for date in dates.after.as_slice() {
        schedule.push(payment_on(slgs, closed, *date, first));
    }
    schedule
}

/// The payments of a face of a SLGS security, in order of date: its [`schedule`], with each payment's interest rounded to the
/// cent, halves up.
///
/// Settlement is from 2000-01-01 to 2150-01-01, and the security keeps the terms of SLGS securities. Its rate is at most 30
/// percent, and the face at most 10^11 cents; then each payment is at most 2 * 10^11 cents, and has at most 4 * 10^10 cents
/// of interest.
///
/// Two dates that open on one day are two payments, in the order of the dates.
pub fn payments(slgs: &Slgs, face: Cents, closed: &ClosedDays) -> ArrayVec<Flow, 84>
    requires settlement { IsSettlement slgs.now.settle }
    requires terms { IsSlgs slgs.now }
    requires rate { slgs.now.rate.0 ≤ GREATEST_RATE }
    requires face { face.0 ≤ 10 ^ 11 }
    ensures payments { result.items ≡ map (flow_by slgs.now.rate.0 face.0) (slgs_schedule slgs.now closed.now) }
    ensures order { ComeInOrder result.items }
    ensures open_days { FallOnOpenDays closed.now result.items }
    ensures end_at_maturity { EndsOn (open_day closed.now slgs.now.maturity) result.items }
    ensures within_term { AreWithinTerm slgs.now closed.now result.items }
    ensures small { AreSmall result.items }
    ensures interest_bound { EarnLittle slgs.now closed.now face.0 result.items }
    ensures principal_once { PayPrincipalOnce slgs.now closed.now face.0 result.items }
    ensures face_alone { PayFaceAlone slgs.now face.0 result.items }
    ensures equal_interest { PayEqualInterest slgs.now closed.now face.0 result.items }
    ensures amounts { KeepAmounts slgs.now face.0 result.items }
{
    let schedule = schedule(slgs, closed);
    scheduled_flows(schedule.as_slice(), slgs.rate, face)
}
