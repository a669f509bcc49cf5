//! What searches come to.
ghost use Rattle.std.specs.Prelude.{◌≡◌, IfErr, IfOk, IfSome};
ghost use Rattle.case_file.specs.Case.{HasTerms, case_view};
ghost use Rattle.branch_search.specs.Search.{EndsOf, IsFound, IsOverBound};

use bound_certificate::{Certificate, write_packed};
use branch_search::{Found, Hint, SearchEnd, Spent, Unwatched, search, search_from};
use case_file::Case;
use cash_table::cost;
use certificate_packing::pack;
use escrow_check::{Portfolio, Verdict, check};
use escrow_desk::NoMemory;
use figure_cases::Files;
use figure_sheets::{Unread, shown_day};
use std::alloc::{AllocError, Global};

// What was found, as `check` accepts it: its cost, its gap and its purchases.
fn accepted_text(
    alloc: Global,
    portfolio: &Portfolio,
    certificate: &Certificate,
) -> Result<String, AllocError> {
    let mut text = format!(in alloc; "cost {} gap {}", portfolio.cost.0, portfolio.gap.0)?;
    if let Some(buys) = &certificate.buys {
        for buy in buys.as_slice() {
            let buy = format!(in alloc; " buy {} {}", buy.line, buy.units)?;
            text.push_str(buy.as_str())?;
        }
    }
    Ok(text)
}

// What a search found.
fn found_text(alloc: Global, case: &Case, found: Found) -> Result<String, NoMemory>
    requires terms { HasTerms (case_view case.now) }
    requires found { IsFound (case_view case.now) found.plan found.tree found.gap }
{
    let _dates = case.book.need_count();
    let certificate = found.into_certificate(alloc, &case.book)?;
    let packed = pack(alloc, &certificate)?;
    let text = write_packed(alloc, &packed)?;
    match check(alloc, case, text.as_slice())? {
        Verdict::Yes(portfolio) => Ok(accepted_text(alloc, &portfolio, &certificate)?),
        _ => Ok(String::from_str(alloc, "what isn't accepted")?),
    }
}

// What stands where a budget is spent.
fn spent_text(alloc: Global, case: &Case, spent: &Spent) -> Result<String, AllocError>
    requires { IfSome spent.now.best (IsOverBound (case_view case.now) spent.now.bound.0) }
{
    let nodes = spent.tree.as_slice().len();
    let bound = spent.bound.0;
    match &spent.best {
        Some(plan) => {
            let best = cost(&case.book, plan).0;
            format!(in alloc; "spent {nodes} bound {bound} best {best}")
        }
        None => format!(in alloc; "spent {nodes} bound {bound} best none"),
    }
}

// How a search ended without a portfolio.
fn ending_text(alloc: Global, case: &Case, end: SearchEnd) -> Result<String, NoMemory>
    requires { EndsOf (case_view case.now) end }
{
    match end {
        SearchEnd::Short(day) => {
            let day = shown_day(alloc, Some(day))?;
            Ok(format!(in alloc; "short {day}")?)
        }
        SearchEnd::NoneWithinYield(tree) => {
            Ok(format!(in alloc; "none within yield {}", tree.as_slice().len())?)
        }
        SearchEnd::BudgetSpent(spent) => Ok(spent_text(alloc, case, &spent)?),
        SearchEnd::NoMemory => Err(NoMemory),
    }
}

// What a search comes to.
fn outcome_text(
    alloc: Global,
    case: &Case,
    ended: Result<Found, SearchEnd>,
) -> Result<String, NoMemory>
    requires terms { HasTerms (case_view case.now) }
    requires found { IfOk ended (λ found. IsFound (case_view case.now) found.plan found.tree found.gap) }
    requires ended { IfErr ended (EndsOf (case_view case.now)) }
{
    match ended {
        Ok(found) => found_text(alloc, case, found),
        Err(end) => ending_text(alloc, case, end),
    }
}

// What the search of a case comes to.
fn search_alone(alloc: Global, case: &Case) -> Result<String, NoMemory>
    requires { HasTerms (case_view case.now) }
{
    let ended = search(
        alloc,
        &case.book,
        case.limit,
        case.allowance,
        case.budget,
        &mut Unwatched,
    );
    outcome_text(alloc, case, ended)
}

// What the search of a case comes to by a hint, which is then its own.
fn search_by(alloc: Global, case: &Case, hint: &mut Hint) -> Result<String, NoMemory>
    requires { HasTerms (case_view case.now) }
{
    let ended = search_from(
        alloc,
        &case.book,
        case.limit,
        case.allowance,
        case.budget,
        hint,
        &mut Unwatched,
    );
    outcome_text(alloc, case, ended)
}

// The hint of the search of a case, if there is one.
fn hint_of(alloc: Global, before: Option<&Files>) -> Result<Hint, Unread> {
    let mut hint = Hint::none();
    if let Some(files) = before {
        let case = files.case(alloc)?;
        let _told = search_by(alloc, &case, &mut hint).map_err(|_| Unread::NoMemory)?;
    }
    Ok(hint)
}

/// What the search of a case comes to: alone, by the hint of the search before it, and by its own, which come to the same.
pub(crate) fn searched(alloc: Global, case: &Case, before: Option<&Files>) -> Result<String, Unread>
    requires { HasTerms (case_view case.now) }
{
    let alone = search_alone(alloc, case).map_err(|_| Unread::NoMemory)?;
    let mut hint = hint_of(alloc, before)?;
    for _ in 0..2 {
        let hinted = search_by(alloc, case, &mut hint).map_err(|_| Unread::NoMemory)?;
        if hinted.as_str() != alone.as_str() {
            return Ok(format!(in alloc; "{hinted} by a hint")?);
        }
    }
    Ok(alone)
}
