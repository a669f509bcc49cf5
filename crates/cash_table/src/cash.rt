//! The first day on which a portfolio is short.

ghost use Rattle.std.specs.Prelude.{◌≡◌, true, ℕ, ◌+◌, ◌*◌, ◌^◌, ◌<◌, ◌≤◌, length, take, slice_index_or, ◌≤ℤ◌, ◌<ℤ◌, MatchOption, IfNone, IfSome};
ghost use Rattle.std.specs.List.{All, AllWithin, flat_map, sum, zip};
ghost use Rattle.escrow_units.specs.Flows.{Rise, total};
ghost use Rattle.escrow_units.specs.SlgsTerms.{IsSettlement};
ghost use Rattle.escrow_units.specs.declared.security.Flow.{Flow};
ghost use Rattle.day_sums.specs.Summed.{total_by};
ghost use Rattle.offer_book.specs.Book.{IsLine};
ghost use Rattle.offer_book.specs.Portfolio.{IsPermitted, IsPermittedUnits, IsFirstShort, Meets, line_payments, payments};
ghost use Rattle.offer_book.specs.declared.line.Line.{Line};
ghost use Rattle.cash_table.specs.First.{first_short_of};
ghost use Rattle.cash_table.specs.Receipts.{AreReceipts, IsCovered, IsFirstUncovered, cents_by};

use crate::plan::Plan;
use escrow_units::{Day, Flow, MOST_NEED_DATES};
use offer_book::{Book, Line, PaymentDays};

// So many places behind that of a payment are looked at for the next, before all are searched: a half-year has six months.
const NEXT_PLACES: usize = 8;

/// The first day on which a permitted portfolio doesn't meet the needs; None exactly where it meets them.
///
/// It looks at need dates alone and takes no memory.
pub fn first_short(book: &Book, plan: &Plan) -> Option<Day>
    requires { IsPermitted book.now plan.now }
    ensures value { result ≡ first_short_of book.now plan.now }
    ensures first { MatchOption result
        (Meets book.now plan.now)
        (λ day. IsFirstShort book.now plan.now day) }
{
    first_short_of_units(book, plan.units())
}

// The first day on which permitted units of the lines don't meet the needs.
pub(crate) fn first_short_of_units(book: &Book, units: &[u64]) -> Option<Day>
    requires { IsPermitted book.now units.now }
    ensures value { result ≡ first_short_of book.now units.now }
    ensures first { MatchOption result
        (Meets book.now units.now)
        (λ day. IsFirstShort book.now units.now day) }
{
    let mut receipts = [0; MOST_NEED_DATES];
    add_bought(
        &mut receipts,
        book.needs(),
        book.payment_days(),
        book.lines(),
        units,
    );
    first_uncovered(book.needs(), &receipts)
}

/// What a permitted portfolio pays, by need date: at the place of a date, what is paid after the date before it and up to it,
/// in cents. What is paid after the last need date is left out.
///
/// It takes no memory.
pub fn receipts(book: &Book, plan: &Plan) -> [u64; MOST_NEED_DATES]
    requires { IsPermitted book.now plan.now }
    ensures receipts { AreReceipts book.now.needs (payments book.now plan.now) result }
    ensures bound { sum result < 2 ^ 64 }
{
    let mut receipts = [0; MOST_NEED_DATES];
    add_bought(
        &mut receipts,
        book.needs(),
        book.payment_days(),
        book.lines(),
        plan.units(),
    );
    receipts
}

/// What units of a line pay, by need date as [`receipts`] has it, in cents. The line is counted from 0, and the units are at
/// most its `most`.
///
/// It takes no memory.
pub fn line_receipts(book: &Book, line: u16, units: u64) -> [u64; MOST_NEED_DATES]
    requires line { line < length book.now.lines }
    requires units { (d : Line) → units ≤ (slice_index_or book.now.lines line d).most }
    ensures receipts { (d : Line) → AreReceipts book.now.needs (line_payments book.now.days (slice_index_or book.now.lines line d) units) result }
    ensures bound { sum result ≤ 2 * 10 ^ 13 }
{
    let mut receipts = [0; MOST_NEED_DATES];
    add_receipts(
        &mut receipts,
        book.needs(),
        book.line_payments(line, units).as_slice(),
    );
    receipts
}

// Adds what the bought lines pay, each payment at the first need date on or after its day. A line without units pays
// nothing, so its dates aren't looked for.
fn add_bought(
    receipts: &mut [u64],
    needs: &[Flow],
    days: &PaymentDays,
    lines: &[Line],
    plan: &[u64],
)
    requires places { length needs.now ≤ length receipts.old }
    requires rising { Rise needs.now }
    requires zero { sum receipts.old ≡ 0 }
    requires settlement { IsSettlement days.now.settle }
    requires lines { All (λ line. IsLine days.now line) lines.now }
    requires permitted { All (λ p. IsPermittedUnits p.0 p.1) (zip lines.now plan.now) }
    requires room { total (flat_map (λ p. line_payments days.now p.0 p.1) (zip lines.now plan.now)) < 2 ^ 64 }
    ensures receipts { AreReceipts needs.now (flat_map (λ p. line_payments days.now p.0 p.1) (zip lines.now plan.now)) receipts.new }
    ensures bound { sum receipts.new < 2 ^ 64 }
{
    for (line, units) in lines.iter().zip(plan) {
        if *units > 0 {
            add_receipts(receipts, needs, line.payments(days, *units).as_slice());
        }
    }
}

/// Adds payments to receipts by need date, each at the place of the first need date on or after its day, if there is one.
///
/// The need dates strictly rise, there is a place for each of them, and receipts and payments come to less than 2^64 cents
/// together. It takes no memory.
pub fn add_receipts(receipts: &mut [u64], needs: &[Flow], payments: &[Flow])
    requires places { length needs.now ≤ length receipts.old }
    requires rising { Rise needs.now }
    requires room { sum receipts.old + total payments.now < 2 ^ 64 }
    ensures by_day { (k : ℕ) (d : Flow) → k < length needs.now
        → sum (take (k + 1) receipts.new)
        ≡ sum (take (k + 1) receipts.old) + total_by (slice_index_or needs.now k d).day payments.now }
    ensures whole { sum receipts.new ≤ sum receipts.old + total payments.now }
{
    let mut near = 0;
    for payment in payments {
        near = add_receipt(receipts, needs, near, payment);
    }
}

// Adds a payment at the first need date on or after its day, if there is one, and says its place, which is looked for from a place
// on. It isn't looked for where nothing is paid.
fn add_receipt(receipts: &mut [u64], needs: &[Flow], near: usize, payment: &Flow) -> usize
    requires places { length needs.now ≤ length receipts.old }
    requires rising { Rise needs.now }
    requires room { sum receipts.old + payment.now.cents.0 < 2 ^ 64 }
    ensures by_day { (k : ℕ) (d : Flow) → k < length needs.now
        → sum (take (k + 1) receipts.new)
        ≡ sum (take (k + 1) receipts.old) + cents_by (slice_index_or needs.now k d).day payment.now }
    ensures whole { sum receipts.new ≤ sum receipts.old + payment.now.cents.0 }
{
    if payment.cents.0 == 0 {
        return near;
    }
    let place = place_near(needs, near, payment.day);
    if place < needs.len() {
        receipts[place] += payment.cents.0;
    }
    place
}

// Whether a place is known to be no further than that of the first need date on or after a day: it is the first place, or the need
// date before it comes before the day.
fn is_by(needs: &[Flow], place: usize, day: Day) -> bool
    requires { Rise needs.now }
    ensures bound { result ≡ true → place ≤ length needs.now }
    ensures before { result ≡ true → AllWithin (λ need. need.day <ℤ day) needs.now 0 place }
{
    place == 0 || place <= needs.len() && needs[place - 1].day < day
}

// The place of the first need date on or after a day, as `place_of` has it. Payments come in order of day, so that it is mostly the
// place of the payment before it or one of the next: these are looked at first.
fn place_near(needs: &[Flow], near: usize, day: Day) -> usize
    requires { Rise needs.now }
    ensures bound { result ≤ length needs.now }
    ensures before { AllWithin (λ need. need.day <ℤ day) needs.now 0 result }
    ensures from { AllWithin (λ need. day ≤ℤ need.day) needs.now result (length needs.now) }
{
    if !is_by(needs, near, day) {
        return place_of(needs, day);
    }
    let mut place = near;
    while place < needs.len() && needs[place].day < day {
        if place - near == NEXT_PLACES {
            return place_of(needs, day);
        }
        place += 1;
    }
    place
}

/// The place of the first need date on or after a day, or their number where there is none, by binary search.
///
/// The need dates strictly rise. It takes no memory.
pub fn place_of(needs: &[Flow], day: Day) -> usize
    requires { Rise needs.now }
    ensures bound { result ≤ length needs.now }
    ensures before { AllWithin (λ need. need.day <ℤ day) needs.now 0 result }
    ensures from { AllWithin (λ need. day ≤ℤ need.day) needs.now result (length needs.now) }
{
    needs.partition_point(|need| need.day < day)
}

// The first need date up to which the receipts are less than the needs.
pub(crate) fn first_uncovered(needs: &[Flow], receipts: &[u64]) -> Option<Day>
    requires places { length needs.now ≤ length receipts.now }
    requires needed { total needs.now < 2 ^ 64 }
    requires received { sum receipts.now < 2 ^ 64 }
    ensures none { IfNone result ((k : ℕ) → k < length needs.now → IsCovered needs.now receipts.now k) }
    ensures some { IfSome result (λ day. (k : ℕ)
        × IsFirstUncovered needs.now receipts.now k
        × ((d : Flow) → day ≡ (slice_index_or needs.now k d).day)) }
{
    let mut needed = 0;
    let mut received = 0;
    for (need, receipt) in needs.iter().zip(receipts) {
        needed += need.cents.0;
        received += *receipt;
        if received < needed {
            return Some(need.day);
        }
    }
    None
}
