//! Chains of dives: what a search knows, and the plans that it keeps.
ghost use Rattle.std.specs.Prelude.{◌<◌, ◌≤◌, ◌≡◌, All, IfOk, IfSome, length};
ghost use Rattle.offer_book.specs.Portfolio.{IsPermitted};
ghost use Rattle.plan_finder.specs.Proposal.{IsProposal};

use crate::best::is_cheaper;
use crate::dive::Sequence;
use crate::draw::Draw;
use crate::finder::Finder;
use crate::finding::Proposal;
use crate::limit::YieldLimit;
use crate::parts::{free_most, free_part};
use escrow_desk::NoMemory;
use escrow_units::Cents;
use offer_book::Book;
use std::alloc::Global;
use std::marker::Model;

/// What is looked for.
#[derive(Clone, Copy)]
pub(crate) struct Task<'a> {
    /// Where memory comes from.
    pub alloc: Global,
    /// The book.
    pub book: &'a Book,
    /// The limit on the yield.
    pub limit: &'a YieldLimit,
    /// The cost below which no plan is possible, in cents.
    pub target: Cents,
    /// How much work may be done in all, in sweeps.
    pub effort: u32,
}

/// What a search works with. All its memory is taken when it is made, but for plans and for the exact test of the limit. Contracts
/// see the book and the limit.
#[derive(Drop)]
pub(crate) struct Search<'a> {
    task: Task<'a>,
    finder: Finder<'a>,
    // The lines that can be bought.
    lines: Vec<u16>,
    // Which lines are free in a dive near a plan.
    free: Vec<bool>,
    draw: Draw,
    // The cheapest plan of the dives since the search began anew, if any was found.
    near: Option<Proposal>,
    // The cheapest plan of all.
    best: Option<Proposal>,
}

impl<'a> Model for Search<'a> {
    ghost use Rattle.std.specs.Prelude.{◌≡◌, ◌<◌, ◌≤◌, All, IfSome, length};
    ghost use Rattle.plan_finder.specs.Dive.{SearchContents};
    ghost use Rattle.plan_finder.specs.Proposal.{IsProposal};

    ghost Value = { SearchContents };

    ghost view = { λ s. record { book = s.task.book.now; limit = s.task.limit.now } };

    ghost invariant = { λ s. (s.finder.book ≡ s.task.book.now)
        × (s.finder.limit ≡ s.task.limit.now)
        × All (λ line. line < length s.task.book.now.lines) s.lines.items
        × (length s.lines.items ≤ length s.task.book.now.lines)
        × (length s.free.items ≡ length s.task.book.now.lines)
        × IfSome s.near (IsProposal s.task.limit.now s.task.book.now)
        × IfSome s.best (IsProposal s.task.limit.now s.task.book.now) };
}

// From what number draws start.
const SEED: u64 = 1;

// How much cheaper a plan near another one has to be by the program, so that a dive is worth while: 10 cents, in units of 2^-40
// of a cent.
const LEAST_GAIN: i128 = 10 << 40;

// Whether a dive can't find anything cheaper by the objective of its program.
fn is_hopeless(objective: i128, found: &Option<Proposal>) -> bool {
    match found {
        Some(proposal) => i128::from(proposal.cost.0) * (1 << 40) - LEAST_GAIN <= objective,
        None => false,
    }
}

// The lines that can be bought: their most is at least their least purchase.
fn lines_on_offer(alloc: Global, book: &Book) -> Result<Vec<u16>, NoMemory>
    ensures there { IfOk result (λ lines. All (λ line. line < length book.now.lines) lines.items) }
    ensures few { IfOk result (λ lines. length lines.items ≤ length book.now.lines) }
{
    let mut lines = Vec::new(alloc);
    for line in 0..book.line_count() {
        let own = book.line(line);
        if own.least <= own.most {
            lines.push(line)?;
        }
    }
    Ok(lines)
}

// The plan of a proposal once more.
fn copied(
    alloc: Global,
    book: &Book,
    limit: &YieldLimit,
    proposal: &Option<Proposal>,
) -> Result<Option<Proposal>, NoMemory>
    requires { IfSome proposal.now (IsProposal limit.now book.now) }
    ensures { IfOk result (λ copied. IfSome copied (IsProposal limit.now book.now)) }
{
    match proposal {
        Some(proposal) => Ok(Some(Proposal {
            plan: proposal.plan.copy(alloc)?,
            cost: proposal.cost,
        })),
        None => Ok(None),
    }
}

impl<'a> Search<'a> {
    /// What a search of a task works with.
    ///
    /// # Errors
    ///
    /// Where memory ran out.
    pub(crate) fn make(task: Task<'a>) -> Result<Search<'a>, NoMemory>
        ensures { IfOk result (λ search. search ≡ record { book = task.entry.book.now; limit = task.entry.limit.now }) }
    {
        let alloc = task.alloc;
        let book = task.book;
        Ok(Search {
            task,
            finder: Finder::make(alloc, book, task.limit)?,
            lines: lines_on_offer(alloc, book)?,
            free: vec![in alloc; false; usize::from(book.line_count())]?,
            draw: Draw::from(SEED),
            near: None,
            best: None,
        })
    }

    // How much work may be done in all, in units of the program's work.
    fn most_work(&self) -> u64 {
        self.finder.work_of_sweeps(u64::from(self.task.effort))
    }

    /// Whether all work is done that may be, or the best plan costs no more than the target.
    pub(crate) fn is_done(&self) -> bool {
        let is_spent = self.most_work() <= self.finder.work();
        match &self.best {
            Some(best) => is_spent || best.cost.0 <= self.task.target.0,
            None => is_spent,
        }
    }

    /// How much work may be done in all, in sweeps. Each dive takes more than one.
    pub(crate) fn effort(&self) -> u32 {
        self.task.effort
    }

    /// Whether there is a plan since the search began anew.
    pub(crate) fn has_near(&self) -> bool {
        self.near.is_some()
    }

    /// Whether there is any plan.
    pub(crate) fn has_best(&self) -> bool {
        self.best.is_some()
    }

    /// The cheapest plan of all, if any was promoted.
    pub(crate) fn into_best(self) -> Option<Proposal>
        ensures { IfSome result (IsProposal self.entry.limit self.entry.book) }
    {
        self.best
    }

    /// Offers the plan at hand as it stands.
    ///
    /// # Errors
    ///
    /// Where memory ran out.
    pub(crate) fn offer(&mut self) -> Result<(), NoMemory>
        ensures { self.new ≡ self.old }
    {
        self.finder.offer(&mut self.near)
    }

    // Dives from the solution at hand, makes the plan exact, and offers it.
    fn dive(&mut self, sequence: Sequence) -> Result<(), NoMemory>
        ensures { self.new ≡ self.old }
    {
        let most_work = self.most_work();
        self.finder.descend(sequence, most_work, &mut self.near)
    }

    /// Dives over all lines.
    ///
    /// # Errors
    ///
    /// Where memory ran out.
    pub(crate) fn dive_whole(&mut self, sequence: Sequence) -> Result<(), NoMemory>
        ensures { self.new ≡ self.old }
    {
        self.finder.start_whole();
        self.dive(sequence)
    }

    /// Dives near the cheapest plan of the dives since the search began anew, with the free lines free and the others at the units
    /// of that plan, unless the program shows that nothing cheaper can come of it.
    ///
    /// # Errors
    ///
    /// Where memory ran out.
    pub(crate) fn dive_near(&mut self) -> Result<(), NoMemory>
        ensures { self.new ≡ self.old }
    {
        let Some(near) = &self.near else {
            return Ok(());
        };
        let objective = self.finder.start_near(&near.plan, self.free.as_slice());
        if is_hopeless(objective, &self.near) {
            return Ok(());
        }
        self.dive(Sequence::Coarse)
    }

    /// Begins anew with a dive in an order that is drawn, with two in three lines free and the others as in the best plan.
    ///
    /// # Errors
    ///
    /// Where memory ran out.
    pub(crate) fn dive_far(&mut self, number: u32) -> Result<(), NoMemory>
        ensures { self.new ≡ self.old }
    {
        self.near = None;
        self.draw_most();
        let Some(best) = &self.best else {
            return Ok(());
        };
        self.finder.start_near(&best.plan, self.free.as_slice());
        self.dive(Sequence::Drawn(number))
    }

    /// Begins anew at the best plan.
    ///
    /// # Errors
    ///
    /// Where memory ran out.
    pub(crate) fn return_to_best(&mut self) -> Result<(), NoMemory>
        ensures { self.new ≡ self.old }
    {
        self.near = copied(self.task.alloc, self.task.book, self.task.limit, &self.best)?;
        Ok(())
    }

    /// Begins anew with nothing.
    pub(crate) fn forget(&mut self)
        ensures { self.new ≡ self.old }
    {
        self.near = None;
    }

    /// What the cheapest plan since the search began anew costs, in cents: the greatest number where there is none.
    pub(crate) fn near_cost(&self) -> u64 {
        match &self.near {
            Some(near) => near.cost.0,
            None => u64::MAX,
        }
    }

    /// Takes over the cheapest plan since the search began anew, where it is cheaper than the best one.
    ///
    /// # Errors
    ///
    /// Where memory ran out.
    pub(crate) fn promote(&mut self) -> Result<(), NoMemory>
        ensures { self.new ≡ self.old }
    {
        let cost = Cents(self.near_cost());
        if self.near.is_some() && is_cheaper(cost, &self.best) {
            self.best = copied(self.task.alloc, self.task.book, self.task.limit, &self.near)?;
        }
        Ok(())
    }

    /// Draws which lines are free in the next dive near a plan.
    pub(crate) fn draw_part(&mut self)
        ensures { self.new ≡ self.old }
    {
        let dates = u64::from(self.task.book.need_count()).max(1);
        let Some(near) = &self.near else {
            return;
        };
        if self.lines.len() > 0 {
            free_part(
                self.free.as_mut_slice(),
                &mut self.draw,
                self.lines.as_slice(),
                self.finder.ends(),
                &near.plan,
                dates,
            );
        }
    }

    // Draws two in three lines, beside opening cash, to be free in the next dive near a plan.
    fn draw_most(&mut self)
        ensures { self.new ≡ self.old }
    {
        free_most(
            self.free.as_mut_slice(),
            &mut self.draw,
            self.lines.as_slice(),
        );
    }
}
