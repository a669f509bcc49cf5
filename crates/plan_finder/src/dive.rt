//! A dive: one line after the other is fixed where the relaxation is cheapest, those that pay last first.
//!
//! What is fixed counts exactly from then on, so that the rounding of a late line comes back as exact receipts in all earlier
//! balances, which the next linear program corrects.
ghost use Rattle.std.specs.Prelude.{◌≡◌, ℕ, ◌<◌, ◌≤◌, All, IfOk, IfSome, length, slice_index_or};
ghost use Rattle.fixed_powers.specs.DiscountPowers.{IsLowTable, PowerTable};
ghost use Rattle.offer_book.specs.Portfolio.{IsPermitted, IsPermittedUnits};
ghost use Rattle.offer_book.specs.declared.line.Line.{Line};
ghost use Rattle.plan_finder.specs.Dive.{AreLinesOf};

use crate::draw::drawn_rank;
use crate::ledger::Ledger;
use crate::neighbours::{Neighbours, next_to, permitted_below};
use crate::order::Ranked;
use crate::terms::Purchase;
use cash_table::Plan;
use escrow_desk::NoMemory;
use fixed_powers::Powers;
use node_ranges::Ranges;
use offer_book::{Book, Line};
use price_lp::{Basis, Holding, Purpose, Simplex, SolveEnd};
use proof_tree::Interval;
use std::alloc::Global;
use std::marker::Model;

// The most iterations of a solve from a basis near by.
const WARM_ITERATIONS: u32 = 200;

// The most iterations of a solve from the start.
const COLD_ITERATIONS: u32 = 600;

/// How much work a payment is that is worked out exactly, in units of the program's work.
pub(crate) const PAYMENT_WORK: u64 = 8;

/// In which turn lines are fixed.
#[derive(Clone, Copy, Debug, PartialEq, Eq)]
pub(crate) enum Sequence {
    /// Lines with steps over a dollar first, then those below their least purchase, then the others: each the latest first.
    Coarse,
    /// In the order that a number draws.
    Drawn(u32),
}

/// The turn of a line.
#[derive(Clone, Copy, Debug, PartialEq, Eq, PartialOrd, Ord)]
enum Turn {
    First,
    Second,
    Last,
}

/// The linear program of a dive over the lines of a book, and what is fixed of it. Contracts see the book.
#[derive(Drop)]
pub(crate) struct Diver<'a> {
    book: &'a Book,
    // The linear program, on the heap: so a diver is moved in little room on the stack.
    simplex: Box<Simplex<'a>>,
    // The basis before a line is fixed.
    start: Basis,
    // The basis with the line fixed below.
    below: Basis,
    // The units of each line that is fixed.
    fixed: Vec<Option<u64>>,
    // The lines in the order of their ends.
    order: Vec<Ranked>,
    // How much work it was to fix lines, in units of the program's work, up to the type's end.
    fixing: u64,
}

impl<'a> Model for Diver<'a> {
    ghost use Rattle.std.specs.Prelude.{◌≡◌, length};
    ghost use Rattle.offer_book.specs.Book.{BookContents};
    ghost use Rattle.plan_finder.specs.Dive.{AreLinesOf};

    ghost Value = { BookContents };

    ghost view = { λ d. d.book.now };

    ghost invariant = { λ d. (length d.fixed.items ≡ length d.book.now.lines) × AreLinesOf d.book.now d.order.items };
}

// The turn of a line that isn't fixed, by the amount of it, in units of 2^-10 of a cent.
fn turn_of(line: &Line, amount: i64) -> Turn {
    if line.step > 100 {
        Turn::First
    } else if i128::from(amount) < i128::from(line.least) * i128::from(line.step) * 1024 {
        Turn::Second
    } else {
        Turn::Last
    }
}

// What a purchase is worth at the yield of the limit less what it costs, in units of 2^-62 of a cent; nothing for opening cash,
// which the limit doesn't bind.
fn excess_of(line: u16, bought: &Purchase) -> i128 {
    if line == 0 {
        return 0;
    }
    let cost = i128::from(bought.cost.0).saturating_mul(1 << 62);
    i128::try_from(bought.worth)
        .unwrap_or(i128::MAX)
        .saturating_sub(cost)
}

impl<'a> Diver<'a> {
    /// A dive over the lines of a book, which are given in the order of their ends, against the limit of the powers.
    ///
    /// # Errors
    ///
    /// Where memory ran out.
    pub(crate) fn make(
        alloc: Global,
        book: &'a Book,
        powers: &Powers,
        order: Vec<Ranked>,
    ) -> Result<Diver<'a>, NoMemory>
        requires powers { IsLowTable powers.now }
        requires order { AreLinesOf book.now order.items }
        ensures { IfOk result (λ diver. diver ≡ book.now) }
    {
        let mut simplex = Box::new(alloc, Simplex::make(alloc, book, powers)?)?;
        simplex.aim(Purpose::Cost);
        Ok(Diver {
            book,
            start: simplex.new_basis(alloc)?,
            below: simplex.new_basis(alloc)?,
            simplex,
            fixed: vec![in alloc; None; usize::from(book.line_count())]?,
            order,
            fixing: 0,
        })
    }

    /// How much work was done, in units of the program's work, up to the type's end.
    pub(crate) fn work(&self) -> u64 {
        self.simplex.work().saturating_add(self.fixing)
    }

    /// How much work a sweep is: to go once through all columns of the program.
    pub(crate) fn sweep(&self) -> u64 {
        self.simplex.sweep()
    }

    // Whether a line can be fixed next.
    fn is_open(&self, line: u16) -> bool
        requires { line < length self.now.lines }
    {
        self.simplex.is_basic(line) && self.fixed[usize::from(line)].is_none()
    }

    // The open line that comes first in the order that a number draws.
    fn next_drawn(&self, number: u32) -> Option<u16>
        ensures { IfSome result (λ line. line < length self.now.lines) }
    {
        let mut next = None;
        let mut first = None;
        for ranked in self.order.as_slice() {
            let line = ranked.line;
            if self.is_open(line) {
                let rank = drawn_rank(line, number);
                if is_before(rank, first) {
                    first = Some(rank);
                    next = Some(line);
                }
            }
        }
        next
    }

    // The first open line of the first turn in which there is one, those that pay last first.
    fn next_in_turn(&self) -> Option<u16>
        ensures { IfSome result (λ line. line < length self.now.lines) }
    {
        let mut next = None;
        let mut soonest = None;
        for place in (0..self.order.len()).rev() {
            let line = self.order[place].line;
            if self.is_open(line) {
                let turn = turn_of(self.book.line(line), self.simplex.amount(line));
                if is_sooner(turn, soonest) {
                    soonest = Some(turn);
                    next = Some(line);
                }
            }
        }
        next
    }

    // The line that is fixed next.
    fn next_line(&self, sequence: Sequence) -> Option<u16>
        ensures { IfSome result (λ line. line < length self.now.lines) }
    {
        match sequence {
            Sequence::Coarse => self.next_in_turn(),
            Sequence::Drawn(number) => self.next_drawn(number),
        }
    }

    // Fixes a line at a number of units, with what they cost and pay exactly.
    fn fix(&mut self, ledger: &Ledger, line: u16, units: u64)
        requires ledger { ledger.now.book ≡ self.old }
        requires line { line < length self.old.lines }
        requires permitted { (d : Line) → IsPermittedUnits (slice_index_or self.old.lines line d) units }
        ensures { self.new ≡ self.old }
    {
        if self.fixed[usize::from(line)] == Some(units) {
            return;
        }
        let bought = ledger.purchase(line, units);
        let holding = Holding {
            units,
            cost: bought.cost,
            payments: bought.payments.as_slice(),
            excess: excess_of(line, &bought),
        };
        self.simplex.fix(line, &holding);
        self.fixed[usize::from(line)] = Some(units);
        let work = PAYMENT_WORK * bought.payments.len() as u64;
        self.fixing = self.fixing.saturating_add(work);
    }

    // Solves one linear program more, and gives its objective: the greatest number where there is no solution.
    fn solve(&mut self, iterations: u32) -> i128
        ensures { self.new ≡ self.old }
    {
        match self.simplex.solve(iterations, None) {
            SolveEnd::Stopped(_) => i128::MAX,
            SolveEnd::Optimal | SolveEnd::AtLimit | SolveEnd::Capped => self.simplex.objective(),
        }
    }

    // Fixes a line at the better of two numbers of units, by the objective of the program.
    fn choose(&mut self, ledger: &Ledger, line: u16, choice: Neighbours)
        requires ledger { ledger.now.book ≡ self.old }
        requires line { line < length self.old.lines }
        requires below { (d : Line) → IsPermittedUnits (slice_index_or self.old.lines line d) choice.below }
        requires above { (d : Line) → IsPermittedUnits (slice_index_or self.old.lines line d) choice.above }
        ensures { self.new ≡ self.old }
    {
        self.simplex.save(&mut self.start);
        self.fix(ledger, line, choice.below);
        let below = self.solve(WARM_ITERATIONS);
        self.simplex.save(&mut self.below);
        self.simplex.start_from(&self.start);
        self.fix(ledger, line, choice.above);
        let above = self.solve(WARM_ITERATIONS);
        if below <= above {
            self.fix(ledger, line, choice.below);
            self.simplex.start_from(&self.below);
            self.solve(WARM_ITERATIONS);
        }
    }

    // The permitted numbers of units next to the amount of a line.
    fn neighbours(&self, line: u16) -> Neighbours
        requires line { line < length self.now.lines }
        ensures below { (d : Line) → IsPermittedUnits (slice_index_or self.now.lines line d) result.below }
        ensures above { (d : Line) → IsPermittedUnits (slice_index_or self.now.lines line d) result.above }
    {
        next_to(self.book.line(line), self.simplex.amount(line))
    }

    // Fixes a line at a permitted number of units next to its amount: at the one below where the work is spent.
    fn decide(&mut self, ledger: &Ledger, line: u16, most_work: u64)
        requires ledger { ledger.now.book ≡ self.old }
        requires line { line < length self.old.lines }
        ensures { self.new ≡ self.old }
    {
        let choice = self.neighbours(line);
        if most_work <= self.work() {
            self.fix(ledger, line, choice.below);
        } else if choice.exact || choice.below == choice.above {
            self.fix(ledger, line, choice.below);
            self.solve(WARM_ITERATIONS);
        } else {
            self.choose(ledger, line, choice);
        }
    }

    /// Fixes one open line after the other until none is left: at most every line once. Once so much work is spent, no program is
    /// solved any more.
    pub(crate) fn descend(&mut self, ledger: &Ledger, sequence: Sequence, most_work: u64)
        requires ledger { ledger.now.book ≡ self.old }
        ensures { self.new ≡ self.old }
    {
        for _turn in 0..self.book.line_count() {
            match self.next_line(sequence) {
                Some(line) => self.decide(ledger, line, most_work),
                None => return,
            }
        }
    }

    // Gives a line a range. It isn't fixed any longer.
    fn set_range(&mut self, line: u16, interval: Interval)
        requires line { line < length self.old.lines }
        ensures { self.new ≡ self.old }
    {
        self.simplex.set_range(line, interval);
        self.fixed[usize::from(line)] = None;
    }

    // Frees a line: its range is every number of its units.
    fn free(&mut self, line: u16)
        requires line { line < length self.old.lines }
        ensures { self.new ≡ self.old }
    {
        let whole = Interval {
            low: 0,
            high: self.book.line(line).most,
        };
        self.set_range(line, whole);
    }

    // Solves the program from the start, and gives its objective.
    fn solve_anew(&mut self) -> i128
        ensures { self.new ≡ self.old }
    {
        self.simplex.start_greedily();
        self.solve(COLD_ITERATIONS)
    }

    // Solves the program from a basis; where that has to stop, from the start.
    fn solve_from(&mut self, basis: &Basis)
        ensures { self.new ≡ self.old }
    {
        self.simplex.start_from(basis);
        if let SolveEnd::Stopped(_) = self.simplex.solve(COLD_ITERATIONS, None) {
            self.solve_anew();
        }
    }

    /// Solves the program of all lines from the start, and gives its objective.
    pub(crate) fn start_whole(&mut self) -> i128
        ensures { self.new ≡ self.old }
    {
        for line in 0..self.book.line_count() {
            self.free(line);
        }
        self.solve_anew()
    }

    /// Solves the program in which each line has a range, from a basis where one is given, and else from the start.
    pub(crate) fn start_within(&mut self, ranges: &Ranges, basis: Option<&Basis>)
        requires ranges { length ranges.now.lines ≡ length self.old.lines }
        ensures { self.new ≡ self.old }
    {
        let intervals = ranges.intervals();
        for line in 0..self.book.line_count() {
            self.set_range(line, intervals[usize::from(line)]);
        }
        match basis {
            Some(basis) => self.solve_from(basis),
            None => {
                self.solve_anew();
            }
        }
    }

    /// Solves the program from the start in which only some lines are free, and all others are fixed at a plan's units; it gives
    /// its objective.
    pub(crate) fn start_near(&mut self, ledger: &Ledger, plan: &Plan, free: &[bool]) -> i128
        requires ledger { ledger.now.book ≡ self.old }
        requires plan { IsPermitted self.old plan.now }
        requires free { length free.now ≡ length self.old.lines }
        ensures { self.new ≡ self.old }
    {
        for line in 0..self.book.line_count() {
            if free[usize::from(line)] {
                self.free(line);
            } else {
                self.fix(ledger, line, plan.get(line));
            }
        }
        self.solve_anew()
    }

    // The units at which a line stands after a dive.
    fn units(&self, line: u16) -> u64
        requires line { line < length self.now.lines }
        ensures { (d : Line) → IsPermittedUnits (slice_index_or self.now.lines line d) result }
    {
        match self.fixed[usize::from(line)] {
            Some(units) => permitted_below(self.book.line(line), units),
            None => self.neighbours(line).below,
        }
    }

    /// Gives the ledger the plan at which a dive ended.
    pub(crate) fn surface(&self, ledger: &mut Ledger)
        requires { ledger.old.book ≡ self.now }
        ensures { ledger.new.book ≡ ledger.old.book }
    {
        for line in 0..self.book.line_count() {
            ledger.put(line, self.units(line));
        }
    }
}

// Whether a rank comes before another, if there is any.
fn is_before(rank: u64, first: Option<u64>) -> bool {
    match first {
        Some(other) => rank < other,
        None => true,
    }
}

// Whether a turn comes before another, if there is any.
fn is_sooner(turn: Turn, soonest: Option<Turn>) -> bool {
    match soonest {
        Some(other) => turn < other,
        None => true,
    }
}
