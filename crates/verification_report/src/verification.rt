//! The verification report of an escrow.

ghost use Rattle.std.specs.Prelude.{◌≡◌, slice_index, IfOk};
ghost use Rattle.case_file.specs.Case.{case_view};
ghost use Rattle.offer_book.specs.Book.{IsBook};
ghost use Rattle.offer_book.specs.Portfolio.{IsPermitted, Meets};
ghost use Rattle.verification_report.specs.Report.{figures_of, report_text};
ghost use Rattle.verification_report.specs.Summary.{summary_text};

use crate::cash_flow::push_cash_flow;
use crate::figures::{Figures, push_summary};
use crate::proof::push_proof;
use crate::purchases::{push_buys, push_payments};
use crate::text::push_line;
use case_file::Case;
use cash_table::{Plan, balances, cost, flows, plan_yield, security_cost};
use escrow_desk::NoMemory;
use escrow_units::{Cents, print_cents, print_day};
use offer_book::Book;
use std::alloc::Global;
use yield_enclosure::{YieldAnswer, interval};

// The figures of a permitted portfolio, whose yield is known.
fn figures(case: &Case, plan: &Plan, answer: YieldAnswer, gap: Cents) -> Figures
    requires permitted { IsPermitted case.now.book plan.now }
    requires answer { answer ≡ (figures_of (case_view case.now) plan.now gap.0).answer }
    ensures { result ≡ figures_of (case_view case.now) plan.now gap.0 }
{
    Figures {
        cost: cost(&case.book, plan),
        answer,
        limit: case.limit,
        gap,
    }
}

// The opening cash of a permitted portfolio: a unit of line 0 is a cent.
fn opening_cash(book: &Book, plan: &Plan) -> Cents
    requires { IsPermitted book.now plan.now }
    ensures value { result.0 ≡ slice_index plan.now 0 }
    ensures limits { IsBook book.now }
{
    let lines = book.lines();
    lines[0].cost(plan.get(0))
}

/// The summary of a permitted portfolio and a gap: what it costs, what it yields, the limit and the gap.
///
/// # Errors
///
/// Where memory ran out.
pub fn summary(alloc: Global, case: &Case, plan: &Plan, gap: Cents) -> Result<Vec<u8>, NoMemory>
    requires { IsPermitted case.now.book plan.now }
    ensures { IfOk result (λ text. text.items ≡ summary_text (figures_of (case_view case.now) plan.now gap.0)) }
{
    let answer = plan_yield(alloc, &case.book, plan)?;
    let mut text = Vec::new(alloc);
    push_summary(&mut text, &figures(case, plan, answer, gap))?;
    Ok(text)
}

/// The verification report of a permitted portfolio that meets the needs, and a gap: the purchases, the cash, the summary, the
/// payments line by line, the cash flow with what lies idle, and the yield's proof flow by flow. It is built in one pass.
///
/// # Errors
///
/// Where memory ran out.
#[tactic(auto, unfolding(crate::specs::Report::report_text))]
pub fn report(alloc: Global, case: &Case, plan: &Plan, gap: Cents) -> Result<Vec<u8>, NoMemory>
    requires permitted { IsPermitted case.now.book plan.now }
    requires meets { Meets case.now.book plan.now }
    ensures { IfOk result (λ text. text.items ≡ report_text (case_view case.now) plan.now gap.0) }
{
    let book = &case.book;
    let settle = book.settle();
    let cash = opening_cash(book, plan);
    let flows = flows(alloc, book, plan)?;
    let answer = interval(alloc, settle, flows.as_slice(), security_cost(book, plan))?;
    let entries = balances(alloc, book, plan)?;
    let mut text = Vec::from_slice(alloc, b"escrow report\n")?;
    push_line(&mut text, b"settlement ", print_day(settle).as_bytes())?;
    push_buys(&mut text, book, plan)?;
    push_line(&mut text, b"cash ", print_cents(cash).as_bytes())?;
    push_summary(&mut text, &figures(case, plan, answer, gap))?;
    push_payments(&mut text, book, plan)?;
    push_cash_flow(&mut text, entries.as_slice())?;
    push_proof(alloc, &mut text, settle, answer, flows.as_slice())?;
    push_line(&mut text, b"end", b"")?;
    Ok(text)
}
