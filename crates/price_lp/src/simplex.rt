//! The linear program of a book, and its solution: the bounded dual simplex.
ghost use Rattle.std.specs.Prelude.{[], ◌≡◌, ◌≤◌, length, IfOk};
ghost use Rattle.fixed_powers.specs.DiscountPowers.{IsLowTable, PowerTable};
ghost use Rattle.proof_tree.specs.Tree.{IsLeaf};

use crate::aim::{Aim, Purpose};
use crate::base::Base;
use crate::direction::Direction;
use crate::duals::Duals;
use crate::leaving::Violation;
use crate::line_ranges::Holding;
use crate::pivoting::pivot;
use crate::primal::Primal;
use crate::proposing::{LEAST_WEIGHT, propose_prices, proposed_multiplier, proposed_scale};
use crate::ratio::Breakpoints;
use escrow_desk::NoMemory;
use fixed_powers::Powers;
use offer_book::Book;
use proof_tree::{Interval, Leaf, PRICE_SCALE};
use sparse_basis::{AMOUNT_PLACES, Basis, Stop, TOTAL_PLACES};
use std::alloc::Global;
use std::marker::Model;

/// The most iterations of a solve from nothing: of thousands of programs that were drawn none took more.
pub const COLD_ITERATIONS: u32 = 2_000;

/// The most iterations of a solve that starts near by; where that doesn't come to an end, one from nothing is to follow.
pub const WARM_ITERATIONS: u32 = 300;

/// How a solve ended.
#[derive(Clone, Copy, Debug, PartialEq, Eq)]
pub enum SolveEnd {
    /// No line, link or multiplier is beyond its ends by more than a quarter of a cent.
    Optimal,
    /// The objective reached the limit that was given.
    AtLimit,
    /// The given number of iterations was spent.
    Capped,
    /// It couldn't go on. Where the basis isn't regular, the prices are the last that there were.
    Stopped(Stop),
}

// How much of what is kept is that of the basis as it stands. What is, isn't made again.
#[derive(Clone, Copy, PartialEq, Eq)]
enum Current {
    // Nothing.
    Nothing,
    // The factor and the prices: other ranges leave them.
    Prices,
    // The amounts too: another range of a basic line leaves them.
    Amounts,
}

/// The linear relaxation of a book at a yield, with the ranges of its lines, and the solution that was last found. All its
/// memory is taken when it is made.
#[derive(Drop)]
pub struct Simplex<'a> {
    // What contracts see: how many need dates and lines there are.
    dates: u16,
    lines: u16,
    base: Base<'a>,
    duals: Duals,
    primal: Primal,
    direction: Direction,
    breakpoints: Breakpoints,
    current: Current,
    // Why something that came before a solve couldn't be done: the solve ends by it.
    fault: Option<Stop>,
    iterations: u64,
    work: u64,
    wrong_places: u64,
}

impl<'a> Model for Simplex<'a> {
    ghost use Rattle.price_lp.specs.Program.{ProgramSize};

    ghost Value = { ProgramSize };

    ghost view = { λ s. record { dates = s.dates; lines = s.lines } };
}

// Whether an objective is at least so many cents.
fn reaches(objective: i128, limit: Option<u64>) -> bool {
    match limit {
        Some(cents) => i128::from(cents) << TOTAL_PLACES <= objective,
        None => false,
    }
}

impl<'a> Simplex<'a> {
    /// The program of a book at the yield of powers of the low side, of 0 to 14,400 index days. Each line's range is every
    /// number of its units, the cost counts, and the prices are those of a leaf.
    ///
    /// # Errors
    ///
    /// Where memory ran out.
    pub fn make(alloc: Global, book: &'a Book, powers: &Powers) -> Result<Simplex<'a>, NoMemory>
        requires { IsLowTable powers.now }
        ensures { IfOk result (λ simplex. simplex ≡ record { dates = length book.now.needs; lines = length book.now.lines }) }
    {
        let base = Base::make(alloc, book, powers, Aim::new(Purpose::Cost))?;
        Ok(Simplex {
            dates: book.need_count(),
            lines: book.line_count(),
            duals: Duals::make(alloc, &base)?,
            primal: Primal::make(alloc, &base)?,
            direction: Direction::make(alloc, &base)?,
            breakpoints: Breakpoints::make(alloc, &base)?,
            base,
            current: Current::Nothing,
            fault: None,
            iterations: 0,
            work: 0,
            wrong_places: 0,
        })
    }

    /// Says what the next solve is for. It has to start anew.
    pub fn aim(&mut self, purpose: Purpose)
        ensures { self.new ≡ self.old }
    {
        self.base.aim = Aim::new(purpose);
        self.current = Current::Nothing;
    }

    // Notes what couldn't be done before a solve.
    fn note(&mut self, done: Result<(), Stop>)
        ensures { self.new ≡ self.old }
    {
        if let Err(stop) = done {
            self.fault = Some(stop);
        }
    }

    // Another range of a line, after one with a single amount or not. A line with a single amount has no reduced cost.
    fn note_range(&mut self, line: u16, was_single: bool) -> Result<(), Stop>
        ensures { self.new ≡ self.old }
    {
        if self.base.factored.is_basic(line)? {
            return Ok(());
        }
        if was_single && !self.base.ranges.is_single(line)? {
            self.current = Current::Nothing;
        } else if self.current == Current::Amounts {
            self.current = Current::Prices;
        }
        Ok(())
    }

    // Sets the range of a line.
    fn try_range(&mut self, line: u16, interval: Interval) -> Result<(), Stop>
        ensures { self.new ≡ self.old }
    {
        let was_single = self.base.ranges.is_single(line)?;
        self.base.set_range(line, interval)?;
        self.note_range(line, was_single)
    }

    /// The range of a line, counted from 0, in units; it isn't fixed any longer. Where there is no such line, the next solve stops.
    pub fn set_range(&mut self, line: u16, interval: Interval)
        ensures { self.new ≡ self.old }
    {
        let set = self.try_range(line, interval);
        self.note(set);
    }

    // Fixes a line.
    fn try_fix(&mut self, line: u16, holding: &Holding) -> Result<(), Stop>
        ensures { self.new ≡ self.old }
    {
        let was_single = self.base.ranges.is_single(line)?;
        self.base.fix(line, holding)?;
        self.note_range(line, was_single)
    }

    /// Fixes a line, counted from 0, at a number of units, with what they come to exactly. Where there is no such line, or it pays
    /// nothing on the date of a payment, the next solve stops.
    pub fn fix(&mut self, line: u16, holding: &Holding)
        ensures { self.new ≡ self.old }
    {
        let fixed = self.try_fix(line, holding);
        self.note(fixed);
    }

    /// Starts from the highest prices that never rise under which no line that matures so far has a negative reduced cost.
    pub fn start_greedily(&mut self)
        ensures { self.new ≡ self.old }
    {
        let started = self.base.start_greedily(&mut self.duals);
        self.note(started);
        self.current = Current::Nothing;
        self.count_sweep();
    }

    /// Starts from a leaf's prices alone: dates of equal prices are joined, and lines with a reduced cost near 0 are basic. Where
    /// no basis comes of it, it starts greedily.
    pub fn start_at(&mut self, leaf: &Leaf)
        ensures { self.new ≡ self.old }
    {
        let started = self.base.start_at(&mut self.duals, leaf);
        self.current = Current::Nothing;
        self.count_sweep();
        if started == Err(Stop::WrongPlace) {
            self.note(started);
        }
        if started.is_err() {
            self.start_greedily();
        }
    }

    /// Starts from a basis that was saved. Where that is of more or fewer lines or dates, the next solve stops.
    pub fn start_from(&mut self, basis: &Basis)
        ensures { self.new ≡ self.old }
    {
        let copied = self.base.factored.basis.copy(basis);
        self.note(copied);
        self.current = Current::Nothing;
    }

    /// Saves the basis. Nothing is saved in one of more or fewer lines or dates, from which no solve starts either.
    pub fn save(&self, basis: &mut Basis) {
        let _saved = basis.copy(&self.base.factored.basis);
    }

    /// Room to save a basis in.
    ///
    /// # Errors
    ///
    /// Where memory ran out.
    pub fn new_basis(&self, alloc: Global) -> Result<Basis, NoMemory> {
        Basis::with_room(alloc, self.lines, self.dates)
    }

    // Counts so much work more.
    fn count_work(&mut self, work: usize)
        ensures { self.new ≡ self.old }
    {
        self.work = self.work.saturating_add(work as u64);
    }

    // Counts that all columns, lines and dates were gone through once.
    fn count_sweep(&mut self)
        ensures { self.new ≡ self.old }
    {
        let sweep = self.sweep();
        self.work = self.work.saturating_add(sweep);
    }

    // The factor and the prices of the basis.
    fn refresh_prices(&mut self) -> Result<(), Stop>
        ensures { self.new ≡ self.old }
    {
        if self.current == Current::Nothing {
            self.count_sweep();
            let kept = self.base.factored.refactor()?;
            let factoring = self.base.factored.factoring_work(kept);
            let solving = self.base.factored.solving_work();
            self.count_work(factoring.saturating_add(solving));
            self.duals.refresh(&self.base, kept)?;
            self.current = Current::Prices;
        }
        Ok(())
    }

    // The factor, the prices and the amounts of the basis.
    fn refresh(&mut self) -> Result<(), Stop>
        ensures { self.new ≡ self.old }
    {
        self.refresh_prices()?;
        if self.current == Current::Prices {
            self.count_sweep();
            let solving = self.base.factored.solving_work();
            self.count_work(solving);
            self.base.put_lines(&self.duals)?;
            self.primal.refresh(&self.base)?;
            self.current = Current::Amounts;
        }
        Ok(())
    }

    // Goes to the next basis, without a violation.
    fn leave(&mut self, violation: Violation) -> Result<(), Stop>
        ensures { self.new ≡ self.old }
    {
        let leaving = violation.leaving;
        self.count_sweep();
        let solving = self.base.factored.solving_work();
        self.count_work(solving);
        self.direction.refresh(&self.base, leaving)?;
        self.breakpoints
            .gather(&self.base, &self.duals, &self.direction, leaving)?;
        let passed = self.breakpoints.pass(violation)?;
        let passing = self.breakpoints.passing_work(passed);
        self.count_work(passing);
        self.current = Current::Nothing;
        let basis = &mut self.base.factored.basis;
        pivot(basis, &self.breakpoints, passed, leaving)
    }

    // An iteration; where the solve ends with it, how.
    fn iterate(&mut self, limit: Option<u64>) -> Result<Option<SolveEnd>, Stop>
        ensures { self.new ≡ self.old }
    {
        self.refresh()?;
        if reaches(self.primal.objective().wide(), limit) {
            return Ok(Some(SolveEnd::AtLimit));
        }
        let Some(violation) = self.base.greatest_violation(&self.primal)? else {
            return Ok(Some(SolveEnd::Optimal));
        };
        self.leave(violation)?;
        self.iterations = self.iterations.saturating_add(1);
        Ok(None)
    }

    // The end of a solve that can't go on.
    fn stop(&mut self, stop: Stop) -> SolveEnd
        ensures { self.new ≡ self.old }
    {
        if stop == Stop::WrongPlace {
            self.wrong_places = self.wrong_places.saturating_add(1);
        }
        SolveEnd::Stopped(stop)
    }

    /// Improves the solution by at most so many iterations, or until the objective, in cents, is at least a limit. It stops at once
    /// where something that came before it couldn't be done.
    pub fn solve(&mut self, iterations: u32, limit: Option<u64>) -> SolveEnd
        ensures { self.new ≡ self.old }
    {
        if let Some(fault) = self.fault {
            self.fault = None;
            return self.stop(fault);
        }
        for _ in 0..iterations {
            match self.iterate(limit) {
                Ok(None) => {}
                Ok(Some(end)) => return end,
                Err(stop) => return self.stop(stop),
            }
        }
        SolveEnd::Capped
    }

    /// The objective of the solution, in units of 2^-40 of a cent: what it costs, and what it pays for what it lacks.
    pub fn objective(&self) -> i128 {
        self.primal.objective().wide() >> AMOUNT_PLACES
    }

    /// Whether a line, counted from 0, is in the basis: its amount may be anything within its range. No line is that isn't there.
    pub fn is_basic(&self, line: u16) -> bool {
        self.base.factored.is_basic(line).unwrap_or(false)
    }

    /// How much of a line, counted from 0, the solution buys at par, in units of 2^-10 of a cent: nothing of one that isn't there.
    pub fn amount(&self, line: u16) -> i64 {
        match self.primal.amount(line) {
            Ok(amount) => amount.get(),
            Err(_) => 0,
        }
    }

    /// How many solves ended since a place wasn't there, counted up to the type's end.
    pub fn wrong_places(&self) -> u64 {
        self.wrong_places
    }

    /// How many iterations all solves took together, counted up to the type's end.
    pub fn iterations(&self) -> u64 {
        self.iterations
    }

    /// How much work all solves took together, counted up to the type's end: a unit for each entry of a column that was gone through,
    /// each line, each date and each elimination. An iteration takes three sweeps, and more where the basis is large. It is the same
    /// on every machine.
    pub fn work(&self) -> u64 {
        self.work
    }

    /// How much work a sweep is: to go once through all columns, lines and dates.
    pub fn sweep(&self) -> u64 {
        let entries = self.base.factored.matrix.entry_count() as u64;
        entries
            .saturating_add(u64::from(self.lines))
            .saturating_add(u64::from(self.dates))
    }

    /// Puts the prices and the multiplier into a leaf that has a price for each need date. Where they are greater than a leaf may have
    /// them, they and the weight of the cost are made smaller together: that leaves what the leaf shows. The weight is at least a hundredth. One that doesn't weigh the
    /// cost goes on like that. The leaf has no weights of sums. It takes no memory.
    pub fn propose(&self, leaf: &mut Leaf)
        requires { length leaf.old.prices ≡ self.now.dates }
        ensures well_formed { IsLeaf self.now.dates leaf.new }
        ensures unweighted { leaf.new.weights ≡ [] }
        ensures weighs { 1 ≤ leaf.old.rho → LEAST_WEIGHT ≤ leaf.new.rho }
        ensures without_cost { leaf.old.rho ≡ 0 → leaf.new.rho ≡ 0 }
    {
        let scale = proposed_scale(&self.duals);
        leaf.rho = if leaf.rho == 0 { 0 } else { scale };
        leaf.weights.clear();
        leaf.mu = proposed_multiplier(self.duals.multiplier(), scale);
        propose_prices(&self.duals, self.dates, scale, &mut leaf.prices);
    }
}
