//! The backward plan.
ghost use Rattle.std.specs.Prelude.{◌≡◌, ◌⊎◌, ◌+◌, ◌-◌, ◌<◌, ◌≤◌, length, Ok, Err, IfOk, IfErr, MatchResult, replicate};
ghost use Rattle.offer_book.specs.Book.{IsBook};
ghost use Rattle.offer_book.specs.Portfolio.{IsPermitted, Meets};
ghost use Rattle.backward_build.specs.BackwardPlan.{IsUnderWay, backward_plan, latest_without_offer as latest_without_offer_of, plan_of_last, with_date};
ghost use Rattle.backward_build.specs.OwnOffer.{need_at};
ghost use Rattle.backward_build.specs.Span.{span_of};
ghost use Rattle.backward_build.specs.declared.backward.BuildEnd.TheVariants as ended;

use crate::offers::own_offer;
use crate::residual::{Residual, fewest};
use crate::span::Span;
use cash_table::{Plan, add_receipts};
use escrow_desk::NoMemory;
use escrow_units::{Cents, Day, MOST_NEED_DATES};
use offer_book::Book;
use std::alloc::Global;

/// Why there is no backward plan.
#[derive(Clone, Copy, Debug, PartialEq, Eq)]
pub enum BuildEnd {
    /// On this need date nothing on offer has its last payment.
    NoOwnOffer(Day),
    /// The most units of this line don't cover what is left of the need on the day of its last payment.
    OverCap(u16),
    /// Memory ran out.
    NoMemory,
}

impl From<NoMemory> for BuildEnd {
    ghost from_gives = { λ _ fault. fault ≡ ended.NoMemory };

    fn from(_no_memory: NoMemory) -> BuildEnd {
        BuildEnd::NoMemory
    }
}

// The latest need date without an own offer.
fn latest_without_offer(book: &Book) -> Option<Day>
    ensures { result ≡ latest_without_offer_of book.now }
{
    for later in 0..book.need_count() {
        let place = book.need_count() - 1 - later;
        if own_offer(book, place).is_none() {
            return Some(book.need(place).day);
        }
    }
    None
}

// What is left of the need at a place, where so much is received in its span.
fn left_of(book: &Book, place: u16, received: Cents) -> Residual
    requires { place < length book.now.needs }
    ensures { result ≡ record { span = span_of book.now.needs place; cents = record { 0 = (need_at book.now.needs place).cents.0 - received.0 } } }
{
    Residual {
        span: Span::of(book.needs(), usize::from(place)),
        cents: Cents(book.need(place).cents.0.saturating_sub(received.0)),
    }
}

// Buys the own offer of the need date at a place, where those of all later dates are bought. Receipts are kept by need date.
fn buy_own(book: &Book, place: u16, plan: &mut Plan, received: &mut [u64]) -> Result<(), BuildEnd>
    requires place { place < length book.now.needs }
    requires room { length book.now.needs ≤ length received.old }
    requires under_way { IsUnderWay book.now (place + 1) plan.old received.old }
    ensures bought { IfOk result (λ _. with_date book.now place plan.old ≡ Ok plan.new) }
    ensures ended { IfErr result (λ fault. with_date book.now place plan.old ≡ Err fault) }
    ensures under_way { IfOk result (λ _. IsUnderWay book.now place plan.new received.new) }
{
    let needs = book.needs();
    let Some(number) = own_offer(book, place) else {
        return Err(BuildEnd::NoOwnOffer(book.need(place).day));
    };
    let left = left_of(book, place, Cents(received[usize::from(place)]));
    let Some(units) = fewest(book.line(number), book.payment_days(), &left) else {
        return Err(BuildEnd::OverCap(number));
    };
    plan.put(number, units);
    add_receipts(
        received,
        needs,
        book.line_payments(number, units).as_slice(),
    );
    Ok(())
}

// Buys the own offers of all need dates, from the last to the first.
fn buy_all(book: &Book, plan: &mut Plan) -> Result<(), BuildEnd>
    requires none { plan.old ≡ replicate (length book.now.lines) 0 }
    ensures bought { IfOk result (λ _. plan_of_last book.now (length book.now.needs) ≡ Ok plan.new) }
    ensures ended { IfErr result (λ fault. plan_of_last book.now (length book.now.needs) ≡ Err fault) }
    ensures permitted { IfOk result (λ _. IsPermitted book.now plan.new) }
    ensures meets { IfOk result (λ _. Meets book.now plan.new) }
{
    let mut received = [0; MOST_NEED_DATES];
    for later in 0..book.need_count() {
        buy_own(book, book.need_count() - 1 - later, plan, &mut received)?;
    }
    Ok(())
}

/// The backward plan: from the last need date to the first, the fewest permitted units of its own offer that cover what the
/// purchases for later dates leave of the need. It is permitted and meets the needs. Opening cash isn't used.
///
/// # Errors
///
/// `NoOwnOffer` with the latest need date that has no own offer, where there is one; else `OverCap` with the first own offer, from
/// the last date on, of which even the most units don't cover what is left. `NoMemory` where memory ran out.
pub fn build(alloc: Global, book: &Book) -> Result<Plan, BuildEnd>
    ensures value { IfOk result (λ plan. backward_plan book.now ≡ Ok plan) }
    ensures ended { IfErr result (λ fault. (fault ≡ ended.NoMemory) ⊎ (backward_plan book.now ≡ Err fault)) }
    ensures permitted { IfOk result (λ plan. IsPermitted book.now plan) }
    ensures meets { IfOk result (λ plan. Meets book.now plan) }
{
    if let Some(day) = latest_without_offer(book) {
        return Err(BuildEnd::NoOwnOffer(day));
    }
    let mut plan = Plan::zero(alloc, book)?;
    buy_all(book, &mut plan)?;
    Ok(plan)
}
