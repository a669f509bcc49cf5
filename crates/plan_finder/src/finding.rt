//! Finding a plan.
ghost use Rattle.std.specs.Prelude.{◌≡◌, IfOk, IfSome};
ghost use Rattle.plan_finder.specs.Proposal.{IsProposal};

use crate::again::dive_again;
use crate::dive::Sequence;
use crate::limit::YieldLimit;
use crate::search::{Search, Task};
use cash_table::Plan;
use escrow_desk::NoMemory;
use escrow_units::Cents;
use offer_book::Book;
use std::alloc::Global;

/// A plan, and what it costs.
#[derive(Drop)]
pub struct Proposal {
    /// The units of each line.
    pub plan: Plan,
    /// What it costs, opening cash included, in cents.
    pub cost: Cents,
}

// How many dives in an order that is drawn follow where the first one gives no plan.
const MORE_DIVES: u32 = 12;

// Dives in orders that are drawn until there is a plan.
fn dive_until_found(search: &mut Search) -> Result<(), NoMemory>
    ensures { search.new ≡ search.old }
{
    search.dive_whole(Sequence::Coarse)?;
    for number in 1..MORE_DIVES + 1 {
        if search.has_near() || search.is_done() {
            return Ok(());
        }
        search.dive_whole(Sequence::Drawn(number))?;
    }
    Ok(())
}

// Looks for plans by dives, where something is needed.
fn look(search: &mut Search) -> Result<(), NoMemory>
    ensures { search.new ≡ search.old }
{
    dive_until_found(search)?;
    search.promote()?;
    if search.has_best() {
        dive_again(search)?;
    }
    Ok(())
}

/// Looks for a cheap plan that is permitted, meets the needs and is within the limit. It goes on until so much work is done as the
/// effort says, or a plan costs at most the target, in cents: the least cost that is possible.
///
/// The effort is in sweeps: as much work as to go once through each column of the linear program. It is the same on every machine,
/// and so the same input gives the same plan. Once it is spent, a dive that has begun ends without another program, and its plan is
/// made exact still.
///
/// None says nothing but that no plan was found.
///
/// # Errors
///
/// Where memory ran out.
pub fn find(
    alloc: Global,
    book: &Book,
    limit: &YieldLimit,
    effort: u32,
    target: Cents,
) -> Result<Option<Proposal>, NoMemory>
    ensures { IfOk result (λ proposal. IfSome proposal (IsProposal limit.now book.now)) }
{
    let task = Task {
        alloc,
        book,
        limit,
        target,
        effort,
    };
    let mut search = Search::make(task)?;
    if book.need_count() == 0 {
        search.offer()?;
        search.promote()?;
    } else {
        look(&mut search)?;
    }
    Ok(search.into_best())
}
