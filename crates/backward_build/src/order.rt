//! The order in which lines are taken down.

ghost use Rattle.std.specs.Prelude.{◌≡◌, ◌*◌, ◌^◌, ◌≤◌, ◌<◌, pos, ◌-ℤ◌, Some, IfOk, IfSome, length, map, slice_index_or, option_copied};
ghost use Rattle.std.specs.List.{All, range_with_len};
ghost use Rattle.escrow_units.specs.Flows.{Rise};
ghost use Rattle.offer_book.specs.declared.line.Line.{Line};
ghost use Rattle.backward_build.specs.Order.{AreCandidates, ArePrices, IsOrder, saving_of, worth_of};

use dual_bound::price_on;
use escrow_desk::NoMemory;
use escrow_units::Flow;
use offer_book::{Book, PayCoefficients};
use proof_tree::{PRICE_SCALE, Prices};
use std::alloc::Global;
use std::cmp::Reverse;

/// A line, and what a unit less of it saves.
#[derive(Clone, Copy)]
pub(crate) struct Candidate {
    /// What a unit costs beyond what its payments are worth, scaled.
    saving: i128,
    /// The line, counted from 0.
    pub(crate) line: u16,
}

// What a unit's payments are worth, scaled.
fn worth(needs: &[Flow], prices: &Prices, pays: &[PayCoefficients]) -> u128
    requires rising { Rise needs.now }
    requires prices { ArePrices needs.now prices.now }
    requires few { length pays.now ≤ 84 }
    requires pays { All (λ pay. pay.high ≤ 10 ^ 18) pays.now }
    ensures value { result ≡ worth_of needs.now (Some prices.now) pays.now }
    ensures small { result ≤ 84 * (2 * 10 ^ 30) }
{
    let mut worth = 0;
    for pay in pays {
        worth += u128::from(price_on(needs, prices.as_slice(), pay.day)) * pay.high;
    }
    worth
}

// The same at prices, where there are any: else payments are worth nothing.
fn worth_at(needs: &[Flow], prices: Option<&Prices>, pays: &[PayCoefficients]) -> u128
    requires rising { Rise needs.now }
    requires prices { IfSome prices (λ prices. ArePrices needs.now prices.now) }
    requires few { length pays.now ≤ 84 }
    requires pays { All (λ pay. pay.high ≤ 10 ^ 18) pays.now }
    ensures value { result ≡ worth_of needs.now (option_copied prices.entry) pays.now }
    ensures small { result ≤ 84 * (2 * 10 ^ 30) }
{
    match prices {
        Some(prices) => worth(needs, prices, pays),
        None => 0,
    }
}

// A cost beyond a worth, scaled.
fn excess(cost: u128, worth: u128) -> i128
    requires cost { cost ≤ 10 ^ 18 }
    requires worth { worth ≤ 84 * (2 * 10 ^ 30) }
    ensures { result ≡ pos (PRICE_SCALE * cost) -ℤ pos worth }
{
    i128::from(PRICE_SCALE) * cost as i128 - worth as i128
}

// What a unit of a line costs beyond what its payments are worth, scaled. It isn't inlined: its coefficients would stand on the stack
// while lines are trimmed.
#[inline(never)]
fn saving(book: &Book, line: u16, prices: Option<&Prices>) -> i128
    requires line { line < length book.now.lines }
    requires prices { IfSome prices (λ prices. ArePrices book.now.needs prices.now) }
    ensures { (d : Line) → result ≡ saving_of book.now (option_copied prices.entry) (slice_index_or book.now.lines line d) }
{
    let needs = book.needs();
    let coefficients = book.coefficients(line);
    let worth = worth_at(needs, prices, coefficients.pays.as_slice());
    excess(coefficients.cost_low, worth)
}

// Every line with what it saves, in the order of the book.
fn candidates(
    alloc: Global,
    book: &Book,
    prices: Option<&Prices>,
) -> Result<Vec<Candidate>, NoMemory>
    requires { IfSome prices (λ prices. ArePrices book.now.needs prices.now) }
    ensures lines { IfOk result (λ candidates. map (λ candidate. candidate.line) candidates.items ≡ range_with_len 0 (length book.now.lines)) }
    ensures savings { IfOk result (λ candidates. AreCandidates book.now (option_copied prices.entry) candidates.items) }
{
    let mut candidates = Vec::new(alloc);
    for line in 0..book.line_count() {
        let saving = saving(book, line, prices);
        if candidates.push(Candidate { saving, line }).is_err() {
            return Err(NoMemory);
        }
    }
    Ok(candidates)
}

/// Every line once, those that save most first.
pub(crate) fn order(
    alloc: Global,
    book: &Book,
    prices: Option<&Prices>,
) -> Result<Vec<Candidate>, NoMemory>
    requires { IfSome prices (λ prices. ArePrices book.now.needs prices.now) }
    ensures { IfOk result (λ order. IsOrder book.now (option_copied prices.entry) order.items) }
{
    let mut candidates = candidates(alloc, book, prices)?;
    match candidates.sort_by_key(|candidate| Reverse(candidate.saving)) {
        Ok(()) => Ok(candidates),
        Err(_) => Err(NoMemory),
    }
}
