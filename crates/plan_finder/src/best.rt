//! The cheapest plan that was found.
ghost use Rattle.std.specs.Prelude.{◌≡◌, ◌<◌, ◌≤◌, All, IfSome, OnOk, length};
ghost use Rattle.offer_book.specs.Portfolio.{IsPermitted};
ghost use Rattle.plan_finder.specs.Proposal.{IsProposal};

use crate::finding::Proposal;
use crate::ledger::Ledger;
use crate::mend::mend;
use crate::order::Ranked;
use crate::trimming::trim;
use cash_table::{Plan, within_limit};
use escrow_desk::NoMemory;
use escrow_units::{Cents, YieldUnits};
use std::alloc::Global;

/// How much was done to make a plan exact.
#[derive(Clone, Copy)]
pub(crate) struct Exactness {
    /// How often a line was raised to mend it.
    pub rises: u32,
    /// How many numbers of units of a line were tried to trim it.
    pub tries: u32,
}

/// Whether a plan at a cost is cheaper than the best one, if there is any.
pub(crate) fn is_cheaper(cost: Cents, best: &Option<Proposal>) -> bool {
    match best {
        Some(proposal) => cost.0 < proposal.cost.0,
        None => true,
    }
}

/// Keeps the ledger's plan if it meets the needs, is within the limit and is cheaper than the best one. The ledger's test of the
/// limit comes first, since the exact one takes memory and time.
///
/// # Errors
///
/// Where memory ran out.
pub(crate) fn offer(
    alloc: Global,
    limit: YieldUnits,
    ledger: &Ledger,
    best: &mut Option<Proposal>,
) -> Result<(), NoMemory>
    requires { IfSome best.old (IsProposal limit.0 ledger.now.book) }
    ensures { IfSome best.new (IsProposal limit.0 ledger.now.book) }
{
    if !is_cheaper(ledger.cost(), best) || ledger.is_dearer() || ledger.shortage().is_some() {
        return Ok(());
    }
    if within_limit(alloc, ledger.book(), ledger.plan(), limit)? {
        *best = Some(Proposal {
            plan: ledger.plan().copy(alloc)?,
            cost: ledger.cost(),
        });
    }
    Ok(())
}

// Gives the ledger the units of a plan.
fn restore(ledger: &mut Ledger, plan: &Plan)
    requires { IsPermitted ledger.old.book plan.now }
    ensures book { ledger.new.book ≡ ledger.old.book }
    ensures plan { ledger.new.plan ≡ plan.now }
{
    for line in 0..ledger.book().line_count() {
        ledger.put(line, plan.get(line));
    }
}

/// Makes the ledger's plan exact: it is mended once, and then trimmed in each of some orders. Each plan that comes of it is
/// offered. It answers how much was done.
///
/// # Errors
///
/// Where memory ran out.
pub(crate) fn finish(
    alloc: Global,
    limit: YieldUnits,
    orders: &[Vec<Ranked>],
    ledger: &mut Ledger,
    best: &mut Option<Proposal>,
) -> Result<Exactness, NoMemory>
    requires orders { All (λ order. All (λ ranked. ranked.line < length ledger.old.book.lines) order.items) orders.now }
    requires best { IfSome best.old (IsProposal limit.0 ledger.old.book) }
    ensures book { ledger.new.book ≡ ledger.old.book }
    ensures best { IfSome best.new (IsProposal limit.0 ledger.old.book) }
{
    let rises = mend(ledger);
    let mut tries = 0u32;
    if ledger.shortage().is_some() {
        return Ok(Exactness { rises, tries });
    }
    let mended = ledger.plan().copy(alloc)?;
    for order in orders {
        restore(ledger, &mended);
        tries = tries.saturating_add(trim(ledger, order.as_slice()));
        offer(alloc, limit, ledger, best)?;
    }
    Ok(Exactness { rises, tries })
}
