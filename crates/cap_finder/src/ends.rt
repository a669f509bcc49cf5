//! What the search of the greatest cap comes to.

use branch_search::{Found, SearchEnd, Spent};
use case_file::Case;
use escrow_desk::NoMemory;
use escrow_units::{Day, Rate};
use proof_tree::Nodes;

/// An escrow that was found for a case at a cap.
#[derive(Drop)]
pub struct CappedEscrow {
    /// The cap, in thousandths of a percentage point.
    pub cap: Rate,
    /// The case at the cap.
    pub case: Case,
    /// The portfolio that was found for that case, with its tree and its gap.
    pub found: Found,
}

/// Why a search found no escrow, where it wasn't for want of memory.
#[derive(Drop)]
pub enum Obstacle {
    /// No permitted portfolio meets the needs: the first day on which all lines at their most are short.
    Short(Day),
    /// There is no rival, as the tree shows.
    NoneWithinYield(Nodes),
    /// The tree has as many nodes as it may, and bears out no gap that is allowed.
    BudgetSpent(Spent),
}

impl Obstacle {
    ghost use Rattle.std.specs.Prelude.{◌≡◌, IfOk};
    ghost use Rattle.cap_finder.specs.Ends.{end_of};

    // Why a search ended without an escrow; it isn't for want of memory.
    pub(crate) fn of_end(end: SearchEnd) -> Result<Obstacle, NoMemory>
        ensures { IfOk result (λ obstacle. end_of obstacle ≡ end) }
    {
        match end {
            SearchEnd::Short(day) => Ok(Obstacle::Short(day)),
            SearchEnd::NoneWithinYield(nodes) => Ok(Obstacle::NoneWithinYield(nodes)),
            SearchEnd::BudgetSpent(spent) => Ok(Obstacle::BudgetSpent(spent)),
            SearchEnd::NoMemory => Err(NoMemory),
        }
    }
}

/// A cap at which no escrow was found.
#[derive(Drop)]
pub struct Unfound {
    /// The cap, in thousandths of a percentage point.
    pub cap: Rate,
    /// Why none was found for the case at the cap.
    pub obstacle: Obstacle,
}

/// The greatest cap at which an escrow was found.
#[derive(Drop)]
pub struct GreatestCap {
    /// The escrow at that cap.
    pub escrow: CappedEscrow,
    /// The next hundredth of a percentage point, at which none was; None where the cap is the top.
    pub next: Option<Unfound>,
}

/// The case at cap 0, for which no escrow was found.
#[derive(Drop)]
pub struct CaseAtZero {
    /// The case at cap 0.
    pub case: Case,
    /// Why none was found for it.
    pub obstacle: Obstacle,
}

/// What the search of the greatest cap comes to.
#[derive(Drop)]
pub enum CapEnd {
    /// An escrow was found.
    Found(GreatestCap),
    /// None was, neither at the top nor at cap 0.
    NoneFound(CaseAtZero),
}
