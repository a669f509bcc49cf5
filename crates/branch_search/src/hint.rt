//! What a search hands on to the next one.

ghost use Rattle.std.specs.Prelude.{◌≡◌, length, IfOk, IfSome};
ghost use Rattle.case_file.specs.Case.{CaseContents};
ghost use Rattle.offer_book.specs.Portfolio.{IsPermitted};
ghost use Rattle.plan_finder.specs.Proposal.{IsProposal};
ghost use Rattle.branch_search.specs.Search.{IsOutcome};

use crate::found::{Found, SearchEnd};
use cash_table::{Plan, cost, first_short, first_unpermitted, within_limit};
use escrow_desk::NoMemory;
use escrow_units::YieldUnits;
use offer_book::Book;
use plan_finder::Proposal;
use price_lp::Basis;
use std::alloc::Global;

/// What a search hands on to the next one, whose case is near its own as a rule: the best plan that it found, and where the linear
/// program of its root stood. Neither is trusted: the plan counts only where it is tried and can be bought, and the basis is but a
/// place to start from. So any hint may be given, of whatever case.
#[derive(Drop)]
pub struct Hint {
    // The units of each line of the plan.
    units: Option<Vec<u64>>,
    // Where the linear program of the root stood.
    basis: Option<Basis>,
}

// The numbers of units of a plan.
fn units_of(alloc: Global, book: &Book, plan: &Plan) -> Result<Vec<u64>, NoMemory>
    requires { length plan.now ≡ length book.now.lines }
{
    let mut units = Vec::new(alloc);
    for line in 0..book.line_count() {
        units.push(plan.get(line))?;
    }
    Ok(units)
}

// The plan of these numbers of units; 0 of a line for which there is none.
fn plan_of(alloc: Global, book: &Book, units: &[u64]) -> Result<Plan, NoMemory>
    ensures { IfOk result (λ plan. length plan ≡ length book.now.lines) }
{
    let mut plan = Plan::zero(alloc, book)?;
    for line in 0..book.line_count() {
        if let Some(own) = units.get(usize::from(line)) {
            plan.put(line, *own);
        }
    }
    Ok(plan)
}

// The best plan that a search found, if it found one.
pub(crate) fn best_of(ended: &Result<Found, SearchEnd>) -> Option<&Plan>
    ensures { (case : CaseContents) → IsOutcome case ended.now → IfSome result (λ plan. IsPermitted case.book plan.now) }
{
    match ended {
        Ok(found) => Some(&found.plan),
        Err(SearchEnd::BudgetSpent(spent)) => spent.best.as_ref(),
        Err(_) => None,
    }
}

impl Hint {
    /// No hint: the first search has none.
    pub fn none() -> Hint {
        Hint {
            units: None,
            basis: None,
        }
    }

    /// Gives the basis away.
    pub(crate) fn take_basis(&mut self) -> Option<Basis> {
        self.basis.take()
    }

    /// Keeps a basis, and a plan where there is one.
    pub(crate) fn keep(
        &mut self,
        alloc: Global,
        book: &Book,
        plan: Option<&Plan>,
        basis: Option<Basis>,
    ) -> Result<(), NoMemory>
        requires { IfSome plan (λ plan. IsPermitted book.now plan.now) }
    {
        self.basis = basis;
        if let Some(plan) = plan {
            self.units = Some(units_of(alloc, book, plan)?);
        }
        Ok(())
    }

    /// The plan, where it is permitted in a book, meets its needs and is within a limit.
    #[inline(never)]
    pub(crate) fn proposal(
        &self,
        alloc: Global,
        book: &Book,
        limit: YieldUnits,
    ) -> Result<Option<Proposal>, NoMemory>
        ensures { IfOk result (λ proposed. IfSome proposed (IsProposal limit.0 book.now)) }
    {
        let Some(units) = &self.units else {
            return Ok(None);
        };
        let plan = plan_of(alloc, book, units.as_slice())?;
        if units.len() != usize::from(book.line_count())
            || first_unpermitted(book, &plan).is_some()
            || first_short(book, &plan).is_some()
            || !within_limit(alloc, book, &plan, limit)?
        {
            return Ok(None);
        }
        let cost = cost(book, &plan);
        Ok(Some(Proposal { plan, cost }))
    }
}
