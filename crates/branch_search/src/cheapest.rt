//! The cheapest plan that a search has before it looks for others.

ghost use Rattle.std.specs.Prelude.{◌≡◌, ℕ, Err, IfOk, IfSome, MatchOption};
ghost use Rattle.backward_build.specs.BackwardPlan.{backward_plan};
ghost use Rattle.backward_build.specs.declared.backward.BuildEnd.{BuildEnd as BuildFault};
ghost use Rattle.offer_book.specs.Portfolio.{IsPermitted};
ghost use Rattle.plan_finder.specs.Proposal.{IsProposal};
ghost use Rattle.branch_search.specs.Plans.{AreBeyond, HasNone, IsBest, IsBuilt, IsTaken};

use crate::hint::Hint;
use backward_build::{BuildEnd, build, trim};
use cash_table::{Plan, cost, within_limit};
use escrow_desk::NoMemory;
use escrow_units::YieldUnits;
use offer_book::Book;
use plan_finder::{Proposal, YieldLimit};
use std::alloc::Global;

// The backward plan, where there is one.
#[inline(never)]
fn backward(alloc: Global, book: &Book) -> Result<Option<Plan>, NoMemory>
    ensures { IfOk result (λ plan. MatchOption plan ((fault : BuildFault) × (backward_plan book.now ≡ Err fault)) (IsBuilt book.now)) }
{
    match build(alloc, book) {
        Ok(plan) => Ok(Some(plan)),
        Err(BuildEnd::NoMemory) => Err(NoMemory),
        Err(BuildEnd::NoOwnOffer(_)) => Ok(None),
        Err(BuildEnd::OverCap(_)) => Ok(None),
    }
}

// The trimmed plan where it is within the limit, and else the built one where that is.
fn taken(
    alloc: Global,
    book: &Book,
    limit: YieldUnits,
    built: Plan,
    trimmed: Plan,
) -> Result<Option<Plan>, NoMemory>
    requires built { IsPermitted book.now built }
    requires trimmed { IsPermitted book.now trimmed }
    ensures { IfOk result (λ plan. MatchOption plan (AreBeyond limit.0 book.now built trimmed) (IsTaken limit.0 book.now built trimmed)) }
{
    if within_limit(alloc, book, &trimmed, limit)? {
        return Ok(Some(trimmed));
    }
    if within_limit(alloc, book, &built, limit)? {
        return Ok(Some(built));
    }
    Ok(None)
}

// The backward plan, trimmed where the trimmed one is within the limit; None where neither is, or where there is none.
fn backward_within(alloc: Global, book: &Book, limit: YieldUnits) -> Result<Option<Plan>, NoMemory>
    ensures { IfOk result (λ plan. MatchOption plan (HasNone limit.0 book.now) (IsBest limit.0 book.now)) }
{
    let Some(built) = backward(alloc, book)? else {
        return Ok(None);
    };
    let trimmed = trim(alloc, book, &built)?;
    taken(alloc, book, limit, built, trimmed)
}

// Of a plan and a proposed one, the one that costs less.
fn cheaper_of_two(book: &Book, plan: Plan, proposed: Proposal) -> Plan
    requires { IsPermitted book.now plan }
    ensures { (limit : ℕ) → IsBest limit book.now plan → IsProposal limit book.now proposed → IsBest limit book.now result }
{
    if proposed.cost.0 < cost(book, &plan).0 {
        proposed.plan
    } else {
        plan
    }
}

// The same where there may be no other than the proposed one.
fn or_proposed(book: &Book, plan: Option<Plan>, proposed: Proposal) -> Plan
    requires { IfSome plan (IsPermitted book.now) }
    ensures { (limit : ℕ) → MatchOption plan (HasNone limit book.now) (IsBest limit book.now) → IsProposal limit book.now proposed → IsBest limit book.now result }
{
    match plan {
        Some(plan) => cheaper_of_two(book, plan, proposed),
        None => proposed.plan,
    }
}

// The same where either may be missing.
fn cheaper(book: &Book, plan: Option<Plan>, proposed: Option<Proposal>) -> Option<Plan>
    requires { IfSome plan (IsPermitted book.now) }
    ensures { (limit : ℕ) → MatchOption plan (HasNone limit book.now) (IsBest limit book.now) → IfSome proposed (IsProposal limit book.now)
        → MatchOption result (HasNone limit book.now) (IsBest limit book.now) }
{
    match proposed {
        Some(proposed) => Some(or_proposed(book, plan, proposed)),
        None => plan,
    }
}

/// The cheapest of the backward plan, the one that it is trimmed to and that of a hint, of those within the limit; None where there is
/// none.
pub(crate) fn cheapest(
    alloc: Global,
    book: &Book,
    limit: &YieldLimit,
    hint: &Hint,
) -> Result<Option<Plan>, NoMemory>
    ensures { IfOk result (λ plan. MatchOption plan (HasNone limit.now book.now) (IsBest limit.now book.now)) }
{
    let built = backward_within(alloc, book, limit.units())?;
    let hinted = hint.proposal(alloc, book, limit.units())?;
    Ok(cheaper(book, built, hinted))
}
