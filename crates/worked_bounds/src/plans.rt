//! Own offers, bootstrapped prices, and plans that are built backward or taken down.
ghost use Rattle.std.specs.Prelude.{◌≡◌, IfOk, IfSome, length};
ghost use Rattle.offer_book.specs.Portfolio.{IsPermitted, Meets};
ghost use Rattle.backward_build.specs.Order.{ArePrices};

use backward_build::{BuildEnd, bootstrap, build, own_offer, trim, trim_at};
use cash_table::{Plan, first_short, first_unpermitted};
use figure_cases::{leaf_text, own_leaf};
use figure_sheets::{Unread, number_of, shown_day};
use offer_book::Book;
use proof_tree::Prices;
use std::alloc::{AllocError, Global};

/// The own offer of a need date, counted from 0.
pub(crate) fn own(alloc: Global, book: &Book, place: &str) -> Result<String, Unread> {
    match place.parse() {
        Ok(place) if place < book.need_count() => match own_offer(book, place) {
            Some(line) => Ok(format!(in alloc; "{line}")?),
            None => Ok(String::from_str(alloc, "none")?),
        },
        _ => Err(Unread::Argument),
    }
}

/// The leaf of the bootstrapped prices.
pub(crate) fn curve(alloc: Global, book: &Book) -> Result<String, Unread> {
    match bootstrap(alloc, book) {
        Ok(Some(leaf)) => Ok(leaf_text(alloc, &leaf)?),
        Ok(None) => Ok(String::from_str(alloc, "none")?),
        Err(_) => Err(Unread::NoMemory),
    }
}

// The units of each line.
fn plan_text(alloc: Global, book: &Book, plan: &Plan) -> Result<String, AllocError>
    requires { length plan.now ≡ length book.now.lines }
{
    let mut text = String::new(alloc);
    for line in 0..book.line_count() {
        if line > 0 {
            text.push_str(" ")?;
        }
        let units = format!(in alloc; "{}", plan.get(line))?;
        text.push_str(units.as_str())?;
    }
    Ok(text)
}

// Why there is no backward plan.
fn ending_text(alloc: Global, end: BuildEnd) -> Result<String, Unread> {
    match end {
        BuildEnd::NoOwnOffer(day) => {
            let day = shown_day(alloc, Some(day))?;
            Ok(format!(in alloc; "NoOwnOffer {day}")?)
        }
        BuildEnd::OverCap(line) => Ok(format!(in alloc; "OverCap {line}")?),
        BuildEnd::NoMemory => Err(Unread::NoMemory),
    }
}

/// The backward plan, or why there is none.
pub(crate) fn built(alloc: Global, book: &Book) -> Result<String, Unread> {
    match build(alloc, book) {
        Ok(plan) => Ok(plan_text(alloc, book, &plan)?),
        Err(end) => ending_text(alloc, end),
    }
}

// The plan of the units of each line.
fn plan_of(alloc: Global, book: &Book, words: &[&str]) -> Result<Plan, Unread>
    ensures { IfOk result (λ plan. length plan ≡ length book.now.lines) }
{
    let Ok(mut plan) = Plan::zero(alloc, book) else {
        return Err(Unread::NoMemory);
    };
    let count = book.line_count();
    if words.len() != usize::from(count) {
        return Err(Unread::Argument);
    }
    for line in 0..count {
        plan.put(line, number_of(words[usize::from(line)])?);
    }
    Ok(plan)
}

// The plan of the units of each line, which is permitted and meets the needs.
fn sound_plan(alloc: Global, book: &Book, words: &[&str]) -> Result<Plan, Unread>
    ensures permitted { IfOk result (IsPermitted book.now) }
    ensures meets { IfOk result (Meets book.now) }
{
    let plan = plan_of(alloc, book, words)?;
    if first_unpermitted(book, &plan).is_some() {
        return Err(Unread::Argument);
    }
    if first_short(book, &plan).is_some() {
        return Err(Unread::Argument);
    }
    Ok(plan)
}

/// A plan taken down by the bootstrapped prices, where there are any.
pub(crate) fn trimmed(alloc: Global, book: &Book, words: &[&str]) -> Result<String, Unread> {
    let plan = sound_plan(alloc, book, words)?;
    match trim(alloc, book, &plan) {
        Ok(trimmed) => Ok(plan_text(alloc, book, &trimmed)?),
        Err(_) => Err(Unread::NoMemory),
    }
}

// A plan taken down by given prices, or where none are given by what a unit costs.
fn trimmed_at(
    alloc: Global,
    book: &Book,
    words: &[&str],
    prices: Option<&Prices>,
) -> Result<String, Unread>
    requires { IfSome prices (λ prices. ArePrices book.now.needs prices.now) }
{
    let plan = sound_plan(alloc, book, words)?;
    match trim_at(alloc, book, &plan, prices) {
        Ok(trimmed) => Ok(plan_text(alloc, book, &trimmed)?),
        Err(_) => Err(Unread::NoMemory),
    }
}

/// A plan taken down by what a unit of a line costs.
pub(crate) fn trimmed_by_cost(
    alloc: Global,
    book: &Book,
    words: &[&str],
) -> Result<String, Unread> {
    trimmed_at(alloc, book, words, None)
}

/// A plan taken down by the prices of a leaf, whose words come first, up to a `;`.
pub(crate) fn trimmed_by_leaf(
    alloc: Global,
    book: &Book,
    words: &[&str],
) -> Result<String, Unread> {
    let mut weights = Vec::new(alloc);
    let mut units = Vec::new(alloc);
    let mut behind = false;
    for word in words {
        if *word == ";" {
            behind = true;
        } else if behind {
            units.push(*word)?;
        } else {
            weights.push(*word)?;
        }
    }
    let leaf = own_leaf(alloc, book, weights.as_slice())?;
    trimmed_at(alloc, book, units.as_slice(), Some(&leaf.prices))
}
