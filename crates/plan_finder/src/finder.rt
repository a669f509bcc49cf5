//! What dives for plans.
ghost use Rattle.std.specs.Prelude.{◌≡◌, ◌<◌, ◌≤◌, ◌↔◌, All, IfOk, IfSome, IsTrue, length};
ghost use Rattle.offer_book.specs.Portfolio.{IsPermitted, Meets};
ghost use Rattle.node_ranges.specs.Ranges.{AreOf};
ghost use Rattle.plan_finder.specs.Dive.{AreLinesOf};
ghost use Rattle.plan_finder.specs.Proposal.{IsProposal};

use crate::best::{Exactness, finish, offer};
use crate::dive::{Diver, PAYMENT_WORK, Sequence};
use crate::finding::Proposal;
use crate::ledger::Ledger;
use crate::limit::YieldLimit;
use crate::order::{By, Ranked, ends_of, order};
use cash_table::Plan;
use escrow_desk::NoMemory;
use escrow_units::YieldUnits;
use node_ranges::Ranges;
use offer_book::Book;
use price_lp::Basis;
use std::alloc::Global;
use std::marker::Model;

/// What dives for plans within ranges, again and again. All its memory is taken when it is made, but for plans and for the exact
/// test of the limit. Contracts see the book and the limit.
#[derive(Drop)]
pub struct Finder<'a> {
    alloc: Global,
    book: &'a Book,
    limit: YieldUnits,
    // The plan at hand.
    ledger: Ledger<'a>,
    // The linear program.
    diver: Diver<'a>,
    // The orders in which lines are trimmed.
    orders: Vec<Vec<Ranked>>,
    // The last need date that each line's payments serve, counted from 1.
    ends: Vec<u16>,
    // How much work it was to make plans exact, in units of the program's work, up to the type's end.
    finishing: u64,
}

impl<'a> Model for Finder<'a> {
    ghost use Rattle.std.specs.Prelude.{◌≡◌, All, length};
    ghost use Rattle.plan_finder.specs.Dive.{AreLinesOf, SearchContents};

    ghost Value = { SearchContents };

    ghost view = { λ f. record { book = f.book.now; limit = f.limit.0 } };

    ghost invariant = { λ f. (f.ledger.book ≡ f.book.now)
        × (f.diver ≡ f.book.now)
        × All (λ order. AreLinesOf f.book.now order.items) f.orders.items
        × (length f.ends.items ≡ length f.book.now.lines) };
}

// How much work a try is beside the purchase, in units of the program's work: running up what is paid by each need date.
const DATES_WORK: u64 = 500;

// After how much work of a dive within ranges lines are fixed without a program, in sweeps. A whole dive takes 800 to 3,200 on
// cases of 20 to 480 need dates and up to 257 lines.
const DIVE_SWEEPS: u64 = 5_000;

// The orders in which lines are trimmed.
fn orders_of(alloc: Global, book: &Book, ends: &[u16]) -> Result<Vec<Vec<Ranked>>, NoMemory>
    requires { length ends.now ≡ length book.now.lines }
    ensures { IfOk result (λ orders. All (λ order. AreLinesOf book.now order.items) orders.items) }
{
    let mut orders = Vec::new(alloc);
    for by in [By::CoarseFirst, By::LatestFirst, By::EarliestFirst] {
        orders.push(order(alloc, book, ends, by)?)?;
    }
    Ok(orders)
}

impl<'a> Finder<'a> {
    /// What dives for plans of a book within a limit.
    ///
    /// # Errors
    ///
    /// Where memory ran out.
    #[inline(never)]
    pub fn make(alloc: Global, book: &'a Book, limit: &YieldLimit) -> Result<Finder<'a>, NoMemory>
        ensures { IfOk result (λ finder. finder ≡ record { book = book.now; limit = limit.now }) }
    {
        let powers = limit.powers();
        let ledger = Ledger::make(alloc, book, powers)?;
        let ends = ends_of(alloc, &ledger)?;
        let earliest = order(alloc, book, ends.as_slice(), By::EarliestFirst)?;
        Ok(Finder {
            alloc,
            book,
            limit: limit.units(),
            ledger,
            diver: Diver::make(alloc, book, powers, earliest)?,
            orders: orders_of(alloc, book, ends.as_slice())?,
            ends,
            finishing: 0,
        })
    }

    /// The last need date that each line's payments serve, counted from 1: 0 where they serve none.
    pub(crate) fn ends(&self) -> &[u16]
        ensures { length result.now ≡ length self.now.book.lines }
    {
        self.ends.as_slice()
    }

    /// How much work was done, in units of the program's work, up to the type's end.
    pub(crate) fn work(&self) -> u64 {
        self.diver.work().saturating_add(self.finishing)
    }

    /// How much work so many sweeps are, each to go once through all columns of the program, up to the type's end.
    pub(crate) fn work_of_sweeps(&self, sweeps: u64) -> u64 {
        sweeps.saturating_mul(self.diver.sweep())
    }

    // How much work it was to make a plan exact: a rise weighs two purchases of each line, and a try one and the dates.
    fn work_of(&self, done: Exactness) -> u64 {
        let sweep = self.diver.sweep();
        let purchase = PAYMENT_WORK.saturating_mul(sweep / (self.ends.len() as u64).max(1));
        let rise = (2 * PAYMENT_WORK).saturating_mul(sweep);
        let rises = u64::from(done.rises).saturating_mul(rise);
        let tries = u64::from(done.tries).saturating_mul(purchase.saturating_add(DATES_WORK));
        rises.saturating_add(tries)
    }

    /// Whether a plan meets the needs. Of the lines it reads those alone whose units are others than those of the plan at hand,
    /// which it becomes. It takes no memory.
    pub fn meets(&mut self, plan: &Plan) -> bool
        requires { IsPermitted self.old.book plan.now }
        ensures finder { self.new ≡ self.old }
        ensures met { IsTrue result ↔ Meets self.old.book plan.now }
    {
        self.ledger.put_plan(plan);
        self.ledger.shortage().is_none()
    }

    /// Offers the plan at hand as it stands.
    ///
    /// # Errors
    ///
    /// Where memory ran out.
    pub(crate) fn offer(&self, best: &mut Option<Proposal>) -> Result<(), NoMemory>
        requires { IfSome best.old (IsProposal self.now.limit self.now.book) }
        ensures { IfSome best.new (IsProposal self.now.limit self.now.book) }
    {
        offer(self.alloc, self.limit, &self.ledger, best)
    }

    /// Solves the program of all lines from the start.
    pub(crate) fn start_whole(&mut self)
        ensures { self.new ≡ self.old }
    {
        self.diver.start_whole();
    }

    /// Solves the program from the start in which only some lines are free, and all others are fixed at a plan's units; it gives
    /// its objective, in units of 2^-40 of a cent.
    pub(crate) fn start_near(&mut self, plan: &Plan, free: &[bool]) -> i128
        requires plan { IsPermitted self.old.book plan.now }
        requires free { length free.now ≡ length self.old.book.lines }
        ensures { self.new ≡ self.old }
    {
        self.diver.start_near(&self.ledger, plan, free)
    }

    /// Dives from the solution at hand, makes the plan exact, and offers it. Once so much work is done in all, no program is
    /// solved any more.
    ///
    /// # Errors
    ///
    /// Where memory ran out.
    pub(crate) fn descend(
        &mut self,
        sequence: Sequence,
        most_work: u64,
        best: &mut Option<Proposal>,
    ) -> Result<(), NoMemory>
        requires { IfSome best.old (IsProposal self.old.limit self.old.book) }
        ensures finder { self.new ≡ self.old }
        ensures best { IfSome best.new (IsProposal self.old.limit self.old.book) }
    {
        let most_diving = most_work.saturating_sub(self.finishing);
        self.diver.descend(&self.ledger, sequence, most_diving);
        self.diver.surface(&mut self.ledger);
        let done = finish(
            self.alloc,
            self.limit,
            self.orders.as_slice(),
            &mut self.ledger,
            best,
        )?;
        let work = self.work_of(done);
        self.finishing = self.finishing.saturating_add(work);
        Ok(())
    }

    /// Dives once: the relaxation over ranges of units, one for each line, is solved, and one line after the other is fixed; what
    /// comes of it is mended and trimmed. It starts from a basis where one is given, best that of a solution over ranges near by:
    /// it is a hint alone. A dive doesn't depend on those before it.
    ///
    /// The plan is permitted, meets the needs and is within the limit. It needn't lie within the ranges, since mending and trimming
    /// may leave them. None says nothing but that no plan was found.
    ///
    /// Once the work of 5,000 sweeps is done, the lines that are left are fixed without a program, and the plan is made exact still.
    /// A sweep is as much work as to go once through each column of the linear program.
    ///
    /// # Errors
    ///
    /// Where memory ran out.
    pub fn dive(
        &mut self,
        ranges: &Ranges,
        basis: Option<&Basis>,
    ) -> Result<Option<Proposal>, NoMemory>
        requires ranges { AreOf self.old.book ranges.now }
        ensures finder { self.new ≡ self.old }
        ensures proposal { IfOk result (λ found. IfSome found (IsProposal self.old.limit self.old.book)) }
    {
        let mut found = None;
        if self.book.need_count() == 0 {
            self.offer(&mut found)?;
            return Ok(found);
        }
        let most_work = self.work().saturating_add(self.work_of_sweeps(DIVE_SWEEPS));
        self.diver.start_within(ranges, basis);
        self.descend(Sequence::Coarse, most_work, &mut found)?;
        Ok(found)
    }
}
