//! What a search comes to, its certificate, and laws of both.
ghost use Rattle.std.specs.Prelude.{◌≡◌, length, IfOk};
ghost use Rattle.branch_search.specs.Accepted.{FoundAreAccepted, NoneFoundAreAccepted};
ghost use Rattle.branch_search.specs.Plain.{PlainAreSettled};
ghost use Rattle.branch_search.specs.Purchases.{certificate_of, purchases_of as purchases_of_plan};

use bound_certificate::{Buy, Buys, Certificate};
use cash_table::Plan;
use escrow_desk::NoMemory;
use escrow_units::{Cents, Day};
use offer_book::Book;
use proof_tree::Nodes;
use std::alloc::{AllocError, Global};

/// A plan that is permitted, meets the needs and is within the limit.
#[derive(Drop)]
pub(crate) struct Best {
    /// The units of each line.
    pub plan: Plan,
    /// What it costs, opening cash included, in cents.
    pub cost: Cents,
}

/// A portfolio, and a tree that shows that no rival costs less by more than a gap.
#[derive(Drop)]
pub struct Found {
    /// The units of each line.
    pub plan: Plan,
    /// The tree, in preorder.
    pub tree: Nodes,
    /// By how much a rival may cost less, in cents: the least that the tree supports.
    pub gap: u64,
}

impl Found {
    /// The certificate of what was found for a book.
    ///
    /// # Errors
    ///
    /// Where memory ran out.
    pub fn into_certificate(self, alloc: Global, book: &Book) -> Result<Certificate, NoMemory>
        requires { length self.plan ≡ length book.now.lines }
        ensures { IfOk result (λ certificate. certificate ≡ certificate_of self.plan self.tree self.gap) }
    {
        let buys = purchases_of(alloc, book, &self.plan)?;
        Ok(Certificate {
            buys: Some(buys),
            gap: self.gap,
            nodes: self.tree,
        })
    }
}

/// What stands where the budget of a search is spent: its tree, and what that shows.
#[derive(Drop)]
pub struct Spent {
    /// The tree, in preorder.
    pub tree: Nodes,
    /// What no rival costs less than, in cents: the greatest number that the tree bears out.
    pub bound: Cents,
    /// The best plan that was found, if any.
    pub best: Option<Plan>,
}

/// Why a search found no portfolio with a gap that is allowed.
#[derive(Drop)]
pub enum SearchEnd {
    /// No permitted portfolio meets the needs: the first day on which all lines at their most are short.
    Short(Day),
    /// There is no rival, as the tree shows.
    NoneWithinYield(Nodes),
    /// The tree has as many nodes as it may, and bears out no gap that is allowed.
    BudgetSpent(Spent),
    /// Memory ran out.
    NoMemory,
}

impl From<NoMemory> for SearchEnd {
    ghost use Rattle.std.specs.Prelude.{◌≡◌};
    ghost use Rattle.branch_search.specs.declared.found.SearchEnd.TheVariants.{NoMemory as OutOfMemory};

    ghost from_gives = { λ _ ended. ended ≡ OutOfMemory };

    fn from(_memory: NoMemory) -> SearchEnd {
        SearchEnd::NoMemory
    }
}

impl From<AllocError> for SearchEnd {
    ghost use Rattle.std.specs.Prelude.{◌≡◌};
    ghost use Rattle.branch_search.specs.declared.found.SearchEnd.TheVariants.{NoMemory as OutOfMemory};

    ghost from_gives = { λ _ ended. ended ≡ OutOfMemory };

    fn from(_error: AllocError) -> SearchEnd {
        SearchEnd::NoMemory
    }
}

/// The purchases of a portfolio of a book: the lines of which some units are bought, in order.
///
/// # Errors
///
/// Where memory ran out.
pub fn purchases_of(alloc: Global, book: &Book, plan: &Plan) -> Result<Buys, NoMemory>
    requires { length plan.now ≡ length book.now.lines }
    ensures { IfOk result (λ buys. buys ≡ purchases_of_plan plan.now) }
{
    let mut buys = Vec::new(alloc);
    for line in 0..book.line_count() {
        let units = plan.get(line);
        if units > 0 {
            buys.push(Buy { line, units })?;
        }
    }
    Ok(Buys::new(buys))
}

/// `check` accepts the certificate of what is found, with its portfolio; and that of a tree which shows that there is no rival.
pub fn found_laws()
    ensures accepted { FoundAreAccepted }
    ensures none { NoneFoundAreAccepted }
{}

/// A plain case, whose issue allows at least its gap, is settled at the root: no search of it ends for any cause but want of memory.
pub fn settled_laws()
    ensures settled { PlainAreSettled }
{}
