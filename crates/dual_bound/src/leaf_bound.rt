//! The lower bound of a leaf, one line after another.
ghost use Rattle.std.specs.Prelude.{All, ◌≡◌, ◌*◌, ◌^◌, ◌<◌, ◌≤◌, ◌≤ℤ◌, ◌*ℤ◌, ◌+ℤ◌, ◌-ℤ◌, ℕ, ℤ, pos, length, unsigned_abs};
ghost use Rattle.escrow_units.specs.Calendar.{years_after_of};
ghost use Rattle.escrow_units.specs.Flows.{Rise, total};
ghost use Rattle.escrow_units.specs.SlgsTerms.{IsSettlement};
ghost use Rattle.fixed_powers.specs.DiscountPowers.{IsLowTable, PowerTable};
ghost use Rattle.offer_book.specs.Book.{BookContents, IsBook, IsLine};
ghost use Rattle.dual_bound.specs.LeafBound.{bound_of, cost_worth as cost_worth_of, least_within, limit_price as limit_price_of, limit_multiplier as limit_multiplier_of, paid_worth as paid_worth_of, priced_needs as priced_needs_of, price_on as price_on_date, priced_cost as priced_cost_of, priced_form as priced_form_of, unit_load as unit_load_of};
ghost use Rattle.offer_book.specs.Sums.{coarse_step as coarse_step_of};
ghost use Rattle.node_ranges.specs.Ranges.{AreOf};
ghost use Rattle.proof_tree.specs.Tree.{IsLeaf};

use crate::form::Form;
use crate::loads::{load, scaled_load, weighed_ends};
use crate::worth::price_at;
use cash_table::place_of;
use escrow_units::{AMOUNT_LIMIT, Cents, Day, Flow, index360};
use fixed_powers::{ONE, Powers};
use node_ranges::Ranges;
use offer_book::{Book, COEFFICIENT_SCALE, Line, LineKind, coarse_step, line_depth};
use proof_tree::{Interval, Leaf, PRICE_SCALE};

/// The price of a day, by binary search: that of the first need date on or after it, and 0 where there is none. There are as
/// many prices as need dates, which strictly rise.
pub fn price_on(needs: &[Flow], prices: &[u64], day: Day) -> u64
    requires rising { Rise needs.now }
    requires same { length needs.now ≡ length prices.now }
    ensures value { result ≡ price_on_date needs.now prices.now day }
    ensures small { All (λ price. price ≤ 2 * PRICE_SCALE) prices.now → result ≤ 2 * PRICE_SCALE }
{
    price_at(prices, place_of(needs, day))
}

/// The multiplier of the limit on a line of some kind.
pub(crate) fn limit_multiplier(leaf: &Leaf, kind: LineKind) -> u64
    ensures { result ≡ limit_multiplier_of leaf.now kind }
{
    match kind {
        LineKind::Cash => 0,
        LineKind::Security(_) | LineKind::Market(_) => leaf.mu,
    }
}

/// What a cent that a line of some kind costs counts, in units of 1 / [`PRICE_SCALE`].
pub(crate) fn cost_worth(leaf: &Leaf, kind: LineKind) -> i128
    requires cost { leaf.now.rho ≤ PRICE_SCALE }
    requires limit { leaf.now.mu ≤ PRICE_SCALE }
    ensures value { result ≡ cost_worth_of leaf.now kind }
    ensures light { unsigned_abs result ≤ PRICE_SCALE }
{
    i128::from(leaf.rho) - i128::from(limit_multiplier(leaf, kind))
}

// What the limit takes from a cent that is paid on a day, by the powers of a yield.
fn limit_price(settle: Day, powers: &Powers, multiplier: u64, day: Day) -> u64
    requires powers { IsLowTable powers.now }
    requires multiplier { multiplier ≤ PRICE_SCALE }
    requires from { settle ≤ℤ day }
    requires to { day ≤ℤ years_after_of settle 40 }
    ensures { result ≡ limit_price_of powers.now.yield_units settle multiplier day }
{
    let power = powers.power(index360(settle, day));
    (u128::from(multiplier) * u128::from(power) / u128::from(ONE)) as u64
}

// What a cent that a line of some kind pays on a day is worth, in units of 1 / PRICE_SCALE.
fn paid_worth(book: &Book, powers: &Powers, leaf: &Leaf, kind: LineKind, day: Day) -> i128
    requires leaf { IsLeaf (length book.now.needs) leaf.now }
    requires powers { IsLowTable powers.now }
    requires from { book.now.days.settle ≤ℤ day }
    requires to { day ≤ℤ years_after_of book.now.days.settle 40 }
    ensures value { result ≡ paid_worth_of powers.now.yield_units book.now leaf.now kind day }
    ensures light { unsigned_abs result ≤ 2 * PRICE_SCALE }
{
    let price = price_on(book.needs(), leaf.prices.as_slice(), day);
    let limit = limit_price(book.settle(), powers, limit_multiplier(leaf, kind), day);
    i128::from(price) - i128::from(limit)
}

// The form of a line without sums.
#[tactic(auto, unfolding(crate::specs::LeafBound::priced_form))]
fn priced_form(book: &Book, powers: &Powers, leaf: &Leaf, line: &Line) -> Form
    requires limits { IsBook book.now }
    requires leaf { IsLeaf (length book.now.needs) leaf.now }
    requires powers { IsLowTable powers.now }
    requires line { IsLine book.now.days line.now }
    ensures { result ≡ priced_form_of powers.now.yield_units book.now leaf.now line.now }
{
    let coefficients = line.coefficients(book.payment_days());
    let mut form = Form::of_amount(
        cost_worth(leaf, line.kind),
        coefficients.cost_low,
        coefficients.cost_high,
        coefficients.cost_slack,
    );
    for pay in coefficients.pays.as_slice() {
        let worth = paid_worth(book, powers, leaf, line.kind, pay.day);
        form = form.plus(Form::of_payment(worth, pay));
    }
    form
}

/// So many cents at what each is worth.
pub(crate) fn weighed(worth: i128, cents: Cents) -> i128
    requires worth { unsigned_abs worth ≤ 2 * 10 ^ 12 }
    requires cents { cents.0 ≤ 2 * 10 ^ 13 }
    ensures value { result ≡ worth *ℤ pos cents.0 }
    ensures small { unsigned_abs result ≤ 4 * 10 ^ 25 }
{
    worth * i128::from(cents.0)
}

/// What a line costs less what it pays, weighed, times the scale of coefficients.
pub(crate) fn scaled_difference(cost: i128, paid: i128) -> i128
    requires cost { unsigned_abs cost ≤ 4 * 10 ^ 25 }
    requires paid { unsigned_abs paid ≤ 10 ^ 28 }
    ensures { result ≡ pos COEFFICIENT_SCALE *ℤ (cost -ℤ paid) }
{
    i128::from(COEFFICIENT_SCALE) * (cost - paid)
}

// What units of a line cost less what their payments are worth, scaled.
#[tactic(auto, unfolding(crate::specs::LeafBound::priced_cost))]
fn priced_cost(book: &Book, powers: &Powers, leaf: &Leaf, line: &Line, units: u64) -> i128
    requires limits { IsBook book.now }
    requires leaf { IsLeaf (length book.now.needs) leaf.now }
    requires powers { IsLowTable powers.now }
    requires line { IsLine book.now.days line.now }
    requires units { units ≤ line.now.most }
    ensures { result ≡ priced_cost_of powers.now.yield_units book.now leaf.now line.now units }
{
    let mut paid = 0i128;
    for flow in line.payments(book.payment_days(), units).as_slice() {
        let worth = paid_worth(book, powers, leaf, line.kind, flow.day);
        paid += weighed(worth, flow.cents);
    }
    let cost = weighed(cost_worth(leaf, line.kind), line.cost(units));
    scaled_difference(cost, paid)
}

// What the weights of sums credit a unit of a line, scaled.
fn unit_load(book: &Book, coarse: u64, leaf: &Leaf, line: &Line) -> i128
    requires limits { IsBook book.now }
    requires coarse { coarse ≡ coarse_step_of book.now }
    requires leaf { IsLeaf (length book.now.needs) leaf.now }
    requires line { IsLine book.now.days line.now }
    ensures value { result ≡ unit_load_of book.now leaf.now.weights line.now }
    ensures small { unsigned_abs result ≤ 64 * 10 ^ 29 }
{
    let depth = line_depth(book, coarse, line);
    scaled_load(
        coarse,
        load(leaf.weights.as_slice(), book.need_count(), depth),
    )
}

/// A cost of units that are each credited a load, both scaled.
pub(crate) fn credited_cost(cost: i128, unit_load: i128, units: u64) -> i128
    requires cost { unsigned_abs cost ≤ 71 * 10 ^ 33 }
    requires load { unsigned_abs unit_load * units ≤ 10 ^ 34 }
    ensures { result ≡ cost -ℤ unit_load *ℤ pos units }
{
    cost - unit_load * i128::from(units)
}

// The least that a line can add within an interval, where each unit is credited a load.
fn least(
    book: &Book,
    powers: &Powers,
    leaf: &Leaf,
    line: &Line,
    unit_load: i128,
    interval: Interval,
) -> i128
    requires limits { IsBook book.now }
    requires leaf { IsLeaf (length book.now.needs) leaf.now }
    requires powers { IsLowTable powers.now }
    requires line { IsLine book.now.days line.now }
    requires ordered { interval.low ≤ interval.high }
    requires high { interval.high ≤ line.now.most }
    requires load { unit_load ≡ unit_load_of book.now leaf.now.weights line.now }
    ensures value { result ≡ least_within powers.now.yield_units book.now leaf.now line.now interval }
    ensures size { unsigned_abs result ≤ 71 * 10 ^ 33 }
{
    if interval.low == interval.high {
        let cost = priced_cost(book, powers, leaf, line, interval.low);
        return credited_cost(cost, unit_load, interval.low);
    }
    priced_form(book, powers, leaf, line)
        .credited(unit_load)
        .least_within(line, interval)
}

/// What needs are worth at a leaf's prices, in cents over [`PRICE_SCALE`](crate::PRICE_SCALE): the sum of each need, in cents,
/// times the price of its date. There are as many prices as needs, none above twice the scale, and the needs come to at most
/// the limit of amounts in all.
pub fn priced_needs(needs: &[Flow], prices: &[u64]) -> u128
    requires same { length needs.now ≡ length prices.now }
    requires prices { All (λ price. price ≤ 2 * PRICE_SCALE) prices.now }
    requires needs { total needs.now ≤ AMOUNT_LIMIT }
    ensures value { result ≡ priced_needs_of needs.now prices.now }
    ensures size { result ≤ 2 * 10 ^ 25 }
{
    let mut worth = 0;
    for place in 0..needs.len() {
        worth += u128::from(needs[place].cents.0) * u128::from(prices[place]);
    }
    worth
}

/// What a bound has before its lines: what the needs are worth, scaled, and the ends of the sums that are weighed.
pub(crate) fn needs_and_ends(needs: u128, ends: i128) -> i128
    requires needs { needs ≤ 2 * 10 ^ 25 }
    requires ends { unsigned_abs ends ≤ 64 * (512 * 10 ^ 32) }
    ensures value { result ≡ pos (COEFFICIENT_SCALE * needs) +ℤ ends }
    ensures small { unsigned_abs result ≤ 33 * 10 ^ 35 }
{
    COEFFICIENT_SCALE as i128 * needs as i128 + ends
}

/// The lower bound of a leaf over ranges, at the yield of the powers, scaled: what the needs are worth at its prices, and the
/// least that each line can add within its interval, with the ends of the sums that it weighs. [`bound_laws`](crate::bound_laws) says what it bounds.
///
/// The leaf keeps its limits, with one price for each need date; the ranges have an interval for each line of the book,
/// whose high end is at most the line's most; and the powers are of the low side, of 0 to 14,400 index days. The bound is in
/// units of a cent over [`COEFFICIENT_SCALE`] times [`PRICE_SCALE`], and lies between -10^37 and 10^37. It takes no memory.
///
/// It reads each date of each line anew: [`Columns`](crate::Columns) gives the same bound, fast.
#[tactic(auto, unfolding(crate::specs::LeafBound::bound_of))]
pub fn bound(book: &Book, powers: &Powers, ranges: &Ranges, leaf: &Leaf) -> i128
    requires leaf { IsLeaf (length book.now.needs) leaf.now }
    requires powers { IsLowTable powers.now }
    requires ranges { AreOf book.now ranges.now }
    ensures value { result ≡ bound_of powers.now.yield_units book.now ranges.now leaf.now }
    ensures size { unsigned_abs result < 10 ^ 37 }
{
    let lines = book.lines();
    let intervals = ranges.intervals();
    let coarse = coarse_step(book);
    let mut bound = needs_and_ends(
        priced_needs(book.needs(), leaf.prices.as_slice()),
        weighed_ends(book, coarse, ranges.sums(), leaf.weights.as_slice()),
    );
    for place in 0..lines.len() {
        let line = &lines[place];
        let unit_load = unit_load(book, coarse, leaf, line);
        bound += least(book, powers, leaf, line, unit_load, intervals[place]);
    }
    bound
}
