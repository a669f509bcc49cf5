//! Portfolios: units of each line of a book.

ghost use Rattle.std.specs.Prelude.{◌≡◌, ◌≤◌, IfOk, length};
ghost use Rattle.offer_book.specs.Portfolio.{IsPermitted};

use crate::lines::receipts_shown;
use cash_table::{
    Plan, Schedules, Standing, balances, cost, first_short, first_unpermitted, flows,
    plan_standing, plan_yield, point_excluded, receipts, security_cost, within_limit,
};
use escrow_desk::NoMemory;
use escrow_units::{GREATEST_INDEX, GREATEST_YIELD, YieldUnits, print_day};
use figure_sheets::{Unread, number_of, shown_day, shown_flows, shown_yes, up_to};
use fixed_powers::{Powers, Side};
use offer_book::Book;
use std::alloc::{AllocError, Global};
use yield_enclosure::YieldAnswer;

// Units of each line of a book.
fn plan_of(alloc: Global, book: &Book, units: &[&str]) -> Result<Plan, Unread>
    ensures { IfOk result (λ plan. length plan ≡ length book.now.lines) }
{
    let Ok(mut plan) = Plan::zero(alloc, book) else {
        return Err(Unread::NoMemory);
    };
    let count = book.line_count();
    if units.len() != usize::from(count) {
        return Err(Unread::Argument);
    }
    for line in 0..count {
        plan.put(line, number_of(units[usize::from(line)])?);
    }
    Ok(plan)
}

// Units of each line, each of them permitted.
fn permitted(alloc: Global, book: &Book, units: &[&str]) -> Result<Plan, Unread>
    ensures { IfOk result (λ plan. IsPermitted book.now plan) }
{
    let plan = plan_of(alloc, book, units)?;
    match first_unpermitted(book, &plan) {
        None => Ok(plan),
        Some(_) => Err(Unread::Argument),
    }
}

// What is known of a yield.
fn yield_shown(alloc: Global, answer: YieldAnswer) -> Result<String, AllocError> {
    match answer {
        YieldAnswer::Between { lo, hi } => format!(in alloc; "{} {}", lo.0, hi.0),
        YieldAnswer::Empty => String::from_str(alloc, "empty"),
        YieldAnswer::Negative => String::from_str(alloc, "negative"),
        YieldAnswer::Above => String::from_str(alloc, "above"),
    }
}

// The first line of which the units aren't permitted.
fn unpermitted(alloc: Global, book: &Book, units: &[&str]) -> Result<String, Unread> {
    match first_unpermitted(book, &plan_of(alloc, book, units)?) {
        Some(line) => Ok(format!(in alloc; "{line}")?),
        None => Ok(String::from_str(alloc, "none")?),
    }
}

// The first short day, and the costs of a portfolio with and without opening cash.
fn costs(alloc: Global, book: &Book, plan: &Plan) -> Result<String, AllocError>
    requires { IsPermitted book.now plan.now }
{
    let short = shown_day(alloc, first_short(book, plan))?;
    let (all, securities) = (cost(book, plan), security_cost(book, plan));
    format!(in alloc; "{short} {} {}", all.0, securities.0)
}

// What comes in and is needed on each day, and what is left: of a portfolio that is never short.
fn balanced(alloc: Global, book: &Book, plan: &Plan) -> Result<String, Unread>
    requires { IsPermitted book.now plan.now }
{
    if first_short(book, plan).is_some() {
        return Err(Unread::Argument);
    }
    let Ok(entries) = balances(alloc, book, plan) else {
        return Err(Unread::NoMemory);
    };
    let mut text = String::new(alloc);
    for entry in &entries {
        if !text.is_empty() {
            text.push_str(", ")?;
        }
        let (day, came, due) = (print_day(entry.day), entry.receipts.0, entry.needs.0);
        let shown = format!(in alloc; "{} {came} {due} {}", day.as_str(), entry.balance.0)?;
        text.push_str(shown.as_str())?;
    }
    Ok(text)
}

// How a portfolio stands, by the schedules of the book's lines.
fn standing_of(alloc: Global, book: &Book, plan: &Plan) -> Result<Standing, NoMemory>
    requires { IsPermitted book.now plan.now }
{
    let schedules = Schedules::make(alloc, book)?;
    plan_standing(alloc, book, &schedules, plan)
}

// The first short day and the yield of a portfolio, by its flows.
fn standing(alloc: Global, book: &Book, plan: &Plan) -> Result<String, Unread>
    requires { IsPermitted book.now plan.now }
{
    let Ok(standing) = standing_of(alloc, book, plan) else {
        return Err(Unread::NoMemory);
    };
    let (short, answer) = (
        shown_day(alloc, standing.short)?,
        yield_shown(alloc, standing.answer)?,
    );
    Ok(format!(in alloc; "{short} {answer}")?)
}

// Whether a portfolio is excluded at a yield.
fn excluded(alloc: Global, book: &Book, plan: &Plan, at: &str) -> Result<String, Unread>
    requires { IsPermitted book.now plan.now }
{
    let at = YieldUnits(up_to(at, GREATEST_YIELD)?);
    match Powers::make(alloc, at, Side::Low, GREATEST_INDEX) {
        Ok(powers) => Ok(shown_yes(alloc, point_excluded(book, &powers, plan))?),
        Err(_) => Err(Unread::NoMemory),
    }
}

// Whether a portfolio's yield is within a limit.
fn is_within(alloc: Global, book: &Book, plan: &Plan, limit: &str) -> Result<String, Unread>
    requires { IsPermitted book.now plan.now }
{
    match within_limit(alloc, book, plan, YieldUnits(number_of(limit)?)) {
        Ok(yes) => Ok(shown_yes(alloc, yes)?),
        Err(NoMemory) => Err(Unread::NoMemory),
    }
}

// What the securities of a portfolio pay, day by day.
fn flows_shown(alloc: Global, book: &Book, plan: &Plan) -> Result<String, Unread>
    requires { IsPermitted book.now plan.now }
{
    match flows(alloc, book, plan) {
        Ok(flows) => Ok(shown_flows(alloc, flows.as_slice())?),
        Err(NoMemory) => Err(Unread::NoMemory),
    }
}

// The yield of a portfolio.
fn yield_of(alloc: Global, book: &Book, plan: &Plan) -> Result<String, Unread>
    requires { IsPermitted book.now plan.now }
{
    match plan_yield(alloc, book, plan) {
        Ok(answer) => Ok(yield_shown(alloc, answer)?),
        Err(NoMemory) => Err(Unread::NoMemory),
    }
}

/// What a call on a portfolio comes to, if it is one.
pub(crate) fn answer(
    alloc: Global,
    book: &Book,
    name: &str,
    arguments: &[&str],
) -> Result<String, Unread> {
    match (name.as_bytes(), arguments) {
        (b"unpermitted", units) => unpermitted(alloc, book, units),
        (b"costs", units) => Ok(costs(alloc, book, &permitted(alloc, book, units)?)?),
        (b"flows", units) => flows_shown(alloc, book, &permitted(alloc, book, units)?),
        (b"receipts", units) => {
            let all = receipts(book, &permitted(alloc, book, units)?);
            Ok(receipts_shown(alloc, book, &all)?)
        }
        (b"balances", units) => balanced(alloc, book, &permitted(alloc, book, units)?),
        (b"standing", units) => standing(alloc, book, &permitted(alloc, book, units)?),
        (b"yield", units) => yield_of(alloc, book, &permitted(alloc, book, units)?),
        (b"within", [limit, units @ ..]) => {
            is_within(alloc, book, &permitted(alloc, book, units)?, limit)
        }
        (b"excluded", [at, units @ ..]) => {
            excluded(alloc, book, &permitted(alloc, book, units)?, at)
        }
        _ => Err(Unread::NoCall),
    }
}
