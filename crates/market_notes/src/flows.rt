//! What a note costs and what it pays.
ghost use Rattle.std.specs.Prelude.{All, ◌≡◌, ◌^◌, ◌<◌, ◌≤◌, map};
ghost use Rattle.escrow_units.specs.CalendarLaws.{IsHalfYear};
ghost use Rattle.escrow_units.specs.Flows.{ComeInOrder, EndsOn, FallOnOpenDays, FallWithin};
ghost use Rattle.escrow_units.specs.OpenDays.{IsBy2190, open_day};
ghost use Rattle.market_notes.specs.NoteFlows.{accrual_of, accrued_interest, cost_of, next_date, note_schedule as note_schedule_of, payment_dates, payment_on as payment_on_of, previous_date};
ghost use Rattle.market_notes.specs.NoteLaws.{AreAfterSettlement, CostsNoLessForMore, CostsPriceOnCouponDate, KeepAmounts, PayFaceOnce, PayNoLessForMore, SettlesIn};
ghost use Rattle.market_notes.specs.NoteTerms.{IsNote};
ghost use Rattle.payment_schedule.specs.Schedule.{IsShort, flow_by};

use crate::note::Note;
use arrayvec::ArrayVec;
use escrow_units::{
    Accrual, Cents, ClosedDays, DatesBeside, Day, Flow, SeriesDates, StepRule, dates_beside,
    days_between, earned, face_price, series_around,
};
use payment_schedule::{HALF_YEAR, ScheduledPayment, scheduled_flows};

// The dates of a note's series around settlement: it pays on those after.
fn dates_of(note: &Note) -> SeriesDates
    requires { IsNote note.now }
    ensures after { result.after.items ≡ payment_dates note.now }
    ensures by { All IsBy2190 result.after.items }
{
    series_around(note.maturity, StepRule::MonthEnd, note.settle)
}

// The dates of a note's series next to settlement.
fn dates_at(note: &Note) -> DatesBeside
    requires { IsNote note.now }
    ensures previous { result.previous ≡ previous_date note.now }
    ensures next { result.next ≡ next_date note.now }
    ensures around { SettlesIn note.now result.previous result.next }
    ensures half_year { IsHalfYear result.previous result.next }
{
    dates_beside(note.maturity, StepRule::MonthEnd, note.settle)
}

/// For which part of a year a note has earned interest by settlement: the days from the last date of its series up to
/// settlement, of a year that is twice the half-year from there to the next date. It is less than half a year, and none where
/// settlement is on a date of the series.
pub fn accrual(note: &Note) -> Accrual
    requires { IsNote note.now }
    ensures value { result ≡ accrual_of note.now }
    ensures some_year { 0 < result.year }
    ensures days { result.parts ≤ 184 }
    ensures half_year { SettlesIn note.now (previous_date note.now) (next_date note.now) }
{
    let dates = dates_at(note);
    let half_year = days_between(dates.previous, dates.next);
    Accrual {
        parts: days_between(dates.previous, note.settle),
        year: 2 * half_year,
    }
}

/// The cost of a face of a note, in cents: its price and the accrued interest, each rounded to the cent, halves up.
///
/// The accrued interest is the half-coupon, by the days from the last date of its series up to settlement, of the days
/// from there to the next date (31 CFR part 356). The note keeps its terms, and the face is at most 10^11 cents.
#[tactic(auto, unfolding(crate::specs::NoteFlows::accrued_interest))]
pub fn note_cost(note: &Note, face: Cents) -> Cents
    requires note { IsNote note.now }
    requires face { face.0 ≤ 10 ^ 11 }
    ensures value { result.0 ≡ cost_of note.now face.0 }
    ensures half_year { SettlesIn note.now (previous_date note.now) (next_date note.now) }
    ensures on_coupon_date { CostsPriceOnCouponDate note.now face.0 result.0 }
    ensures more_face { CostsNoLessForMore note.now face.0 result.0 }
{
    let accrual = accrual(note);
    let accrued = earned(face, note.coupon, accrual.parts, accrual.year);
    Cents(face_price(face, note.price).0 + accrued.0)
}

// The payment of a date.
fn payment_on(note: &Note, closed: &ClosedDays, date: Day) -> ScheduledPayment
    requires { IsBy2190 date }
    ensures { result ≡ payment_on_of note.now closed.now date }
{
    ScheduledPayment::due(closed, date, HALF_YEAR, date == note.maturity)
}

/// The payments of a note by their terms, in order of date: half a year's interest on each date of its series after
/// settlement, and the principal at maturity.
///
/// The series is counted back from maturity by half-years, and keeps month ends. Each payment falls on the open day of its
/// date. The note keeps its terms.
pub fn note_schedule(note: &Note, closed: &ClosedDays) -> ArrayVec<ScheduledPayment, 84>
    requires { IsNote note.now }
    ensures value { result.items ≡ note_schedule_of note.now closed.now }
    ensures short { All (λ payment. IsShort payment.accrual) result.items }
{
    let dates = dates_of(note);
    let mut schedule = ArrayVec::new();
    for date in dates.after.as_slice() {
        schedule.push(payment_on(note, closed, *date));
    }
    schedule
}

/// The payments of a face of a note, in order of date: its [`note_schedule`], with each payment's interest rounded to the cent,
/// halves up.
///
/// Two dates that open on one day are two payments, in the order of the dates. The note keeps its terms, and the face is at
/// most 10^11 cents.
pub fn note_payments(note: &Note, face: Cents, closed: &ClosedDays) -> ArrayVec<Flow, 84>
    requires note { IsNote note.now }
    requires face { face.0 ≤ 10 ^ 11 }
    ensures payments { result.items ≡ map (flow_by note.now.coupon.0 face.0) (note_schedule_of note.now closed.now) }
    ensures order { ComeInOrder result.items }
    ensures open_days { FallOnOpenDays closed.now result.items }
    ensures after_settlement { AreAfterSettlement note.now closed.now result.items }
    ensures end_at_maturity { EndsOn (open_day closed.now note.now.maturity) result.items }
    ensures within_term { FallWithin note.now.settle (open_day closed.now note.now.maturity) result.items }
    ensures face_once { PayFaceOnce note.now face.0 result.items }
    ensures more_face { PayNoLessForMore note.now closed.now face.0 result.items }
    ensures amounts { KeepAmounts note.now face.0 result.items }
{
    let schedule = note_schedule(note, closed);
    scheduled_flows(schedule.as_slice(), note.coupon, face)
}
