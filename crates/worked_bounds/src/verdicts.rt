//! Verdicts on certificates, whole and in pieces.
ghost use Rattle.std.specs.Prelude.{◌≤◌};
ghost use Rattle.case_file.specs.Case.{HasTerms, case_view};

use case_file::Case;
use escrow_check::{Checker, Portfolio, Reason, Verdict, check};
use escrow_desk::NoMemory;
use figure_sheets::{Unread, shown_day};
use std::alloc::{AllocError, Global};
use yield_enclosure::YieldAnswer;

// The sizes of the pieces in which a certificate is checked besides.
const SIZES: [usize; 3] = [1, 2, 7];

// The verdict on a text in pieces of so many bytes.
fn in_pieces(alloc: Global, case: &Case, text: &[u8], size: usize) -> Result<Verdict, NoMemory>
    requires terms { HasTerms (case_view case.now) }
    requires some { 1 ≤ size }
    requires few { size ≤ 65_536 }
{
    let mut checker = Checker::make(alloc, case)?;
    let mut rest = text;
    while !rest.is_empty() {
        let size = size.min(rest.len());
        checker.feed(alloc, &rest[..size])?;
        rest = &rest[size..];
    }
    checker.finish()
}

// An answer to what a portfolio yields.
fn yield_text(alloc: Global, answer: YieldAnswer) -> Result<String, AllocError> {
    match answer {
        YieldAnswer::Between { lo, hi } => format!(in alloc; "{} {}", lo.0, hi.0),
        YieldAnswer::Empty => String::from_str(alloc, "empty"),
        YieldAnswer::Negative => String::from_str(alloc, "negative"),
        YieldAnswer::Above => String::from_str(alloc, "above"),
    }
}

// The portfolio of an accepted certificate.
fn portfolio_text(alloc: Global, portfolio: &Portfolio) -> Result<String, AllocError> {
    let answer = yield_text(alloc, portfolio.answer)?;
    format!(in alloc;
        "yes cost {} yield {answer} gap {}",
        portfolio.cost.0, portfolio.gap.0
    )
}

// Why a certificate isn't accepted.
fn reason_text(alloc: Global, reason: Reason) -> Result<String, AllocError> {
    match reason {
        Reason::Grammar(fault) => format!(in alloc; "no {} {:?}", fault.line, fault.kind),
        Reason::NotPermitted(line) => format!(in alloc; "no NotPermitted {line}"),
        Reason::ShortOn(day) => {
            let day = shown_day(alloc, Some(day))?;
            format!(in alloc; "no ShortOn {day}")
        }
        Reason::YieldAbove => String::from_str(alloc, "no YieldAbove"),
        Reason::BadSplit(node) => format!(in alloc; "no BadSplit {node}"),
        Reason::WeakLeaf(node) => format!(in alloc; "no WeakLeaf {node}"),
        Reason::GapAbove => String::from_str(alloc, "no GapAbove"),
    }
}

// What a verdict says.
fn verdict_text(alloc: Global, verdict: Result<Verdict, NoMemory>) -> Result<String, Unread> {
    match verdict {
        Ok(Verdict::Yes(portfolio)) => Ok(portfolio_text(alloc, &portfolio)?),
        Ok(Verdict::YesNone) => Ok(String::from_str(alloc, "yes none")?),
        Ok(Verdict::No(reason)) => Ok(reason_text(alloc, reason)?),
        Err(NoMemory) => Err(Unread::NoMemory),
    }
}

/// The verdict on a certificate, whole, where it is the same in pieces of several sizes.
pub(crate) fn judged(alloc: Global, case: &Case, text: &[u8]) -> Result<String, Unread>
    requires { HasTerms (case_view case.now) }
{
    let whole = verdict_text(alloc, check(alloc, case, text))?;
    for size in SIZES {
        let other = verdict_text(alloc, in_pieces(alloc, case, text, size))?;
        if other.as_str() != whole.as_str() {
            return Ok(format!(in alloc; "{other} in pieces of {size}")?);
        }
    }
    Ok(whole)
}
