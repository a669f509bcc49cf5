//! The price curve of the need dates, bootstrapped from their own offers.
ghost use Rattle.std.specs.Prelude.{All, ◌≡◌, ◌*◌, ◌^◌, ◌<◌, ◌≤◌, length, IfOk, IfSome, option_map, true};
ghost use Rattle.escrow_units.specs.Flows.{Rise};
ghost use Rattle.offer_book.specs.Book.{IsBook, IsSecurityLine};
ghost use Rattle.proof_tree.specs.Tree.{IsLeaf};
ghost use Rattle.backward_build.specs.OwnOffer.{ends_on, need_at};
ghost use Rattle.backward_build.specs.PriceCurve.{bootstrapped_prices, fair_price as fair_price_of, last_price as last_price_of, leaf_of_prices, next_price as next_price_of, shared as shared_of, unit_paid_in, worth_at};

use crate::offers::own_offer;
use crate::span::Span;
use dual_bound::price_on;
use escrow_desk::NoMemory;
use escrow_units::Flow;
use offer_book::{Book, Line, PayCoefficients};
use proof_tree::{Leaf, PRICE_SCALE, Prices, Weights};
use std::alloc::Global;

// The payments of one unit of a line, scaled.
#[derive(Clone, Copy)]
struct UnitPaid {
    // What those up to the need dates that are priced are worth at their prices.
    worth: u128,
    // What those in the span of the next need date come to.
    left: u128,
}

// What the payments of one unit are worth at the prices of need dates, and what is paid in the span of the next.
fn unit_paid(needs: &[Flow], prices: &[u64], span: &Span, pays: &[PayCoefficients]) -> UnitPaid
    requires rising { Rise needs.now }
    requires same { length needs.now ≡ length prices.now }
    requires prices { All (λ price. price ≤ PRICE_SCALE) prices.now }
    requires few { length pays.now ≤ 84 }
    requires pays { All (λ pay. pay.high ≤ 10 ^ 18) pays.now }
    ensures worth { result.worth ≡ worth_at needs.now prices.now pays.now }
    ensures left { result.left ≡ unit_paid_in span.now pays.now }
{
    let mut worth = 0;
    let mut left = 0;
    for pay in pays {
        worth += u128::from(price_on(needs, prices, pay.day)) * pay.high;
        if span.holds(pay.day) {
            left += pay.high;
        }
    }
    UnitPaid { worth, left }
}

// Of a cost, what earlier payments aren't worth, shared among those that are left.
fn shared(cost: u128, paid: UnitPaid) -> Option<u128>
    requires { 0 < paid.left }
    ensures { result ≡ shared_of cost paid.worth paid.left }
{
    if paid.worth <= cost {
        Some((cost - paid.worth) / paid.left)
    } else {
        None
    }
}

// The price at which an own offer is worth what it costs, for the need date after those that are priced.
fn fair_price(book: &Book, prices: &[u64], line: &Line) -> Option<u128>
    requires place { length prices.now < length book.now.needs }
    requires prices { All (λ price. price ≤ PRICE_SCALE) prices.now }
    requires line { IsSecurityLine book.now.days line.now }
    requires own { ends_on book.now.days (need_at book.now.needs (length prices.now)).day line.now.kind ≡ true }
    ensures { result ≡ fair_price_of book.now.days book.now.needs prices.now line.now }
{
    let needs = book.needs();
    let coefficients = line.coefficients(book.payment_days());
    let span = Span::of(needs, prices.len());
    let priced = &needs[..prices.len()];
    let paid = unit_paid(priced, prices, &span, coefficients.pays.as_slice());
    shared(u128::from(PRICE_SCALE) * coefficients.cost_low, paid)
}

// The price before the next: 1 before the first.
fn last_price(prices: &[u64]) -> u64
    ensures { result ≡ last_price_of prices.now }
{
    if prices.is_empty() {
        PRICE_SCALE
    } else {
        prices[prices.len() - 1]
    }
}

// The price of the need date at a place by its own offer, where those of all earlier dates are there.
fn next_price(book: &Book, place: u16, prices: &[u64]) -> Option<u64>
    requires count { length prices.now ≡ place }
    requires place { place < length book.now.needs }
    requires prices { All (λ price. price ≤ PRICE_SCALE) prices.now }
    ensures value { result ≡ next_price_of book.now prices.now }
    ensures falls { IfSome result (λ price. price ≤ last_price_of prices.now) }
{
    let line = book.line(own_offer(book, place)?);
    let price = fair_price(book, prices, line)?;
    if price <= u128::from(last_price(prices)) {
        Some(price as u64)
    } else {
        None
    }
}

/// The leaf of the bootstrapped prices: the cost counts, the limit has no multiplier, and the price of each need date in order is the
/// greatest at which one unit of its own offer is worth no more than it costs.
///
/// None exactly where a need date has no own offer, or where a price is below 0, above 1 or above the one before.
///
/// # Errors
///
/// Where memory ran out.
pub fn bootstrap(alloc: Global, book: &Book) -> Result<Option<Leaf>, NoMemory>
    ensures value { IfOk result (λ leaf. leaf ≡ option_map leaf_of_prices (bootstrapped_prices book.now)) }
    ensures well_formed { IfOk result (λ leaf. IfSome leaf (IsLeaf (length book.now.needs))) }
{
    let mut prices = Vec::new(alloc);
    for place in 0..book.need_count() {
        let Some(price) = next_price(book, place, prices.as_slice()) else {
            return Ok(None);
        };
        prices.push(price)?;
    }
    Ok(Some(Leaf {
        rho: PRICE_SCALE,
        mu: 0,
        prices: Prices::new(prices),
        weights: Weights::none(alloc),
    }))
}
