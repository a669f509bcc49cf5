//! The parts of a tuner: the steps, the linear program, and what it proposes.
ghost use Rattle.std.specs.Prelude.{[], ◌≡◌, ◌≤◌, length, IfOk, IfSome};
ghost use Rattle.fixed_powers.specs.DiscountPowers.{IsLowTable};
ghost use Rattle.proof_tree.specs.Tree.{IsLeaf};
ghost use Rattle.dual_tune.specs.Steps.{IsBetter, IsImproved, ShowsNoGreater, WeighAlike, zeros_like};
ghost use Rattle.dual_tune.specs.Sweep.{AreColumnsOf, IsPlaced, shown_at, stepped};
ghost use Rattle.dual_tune.specs.Tuner.{AreParts, ArePartsFor};

use crate::given::Given;
use crate::sweep::{Step, Sweep, copy_leaf};
use dual_bound::Columns;
use escrow_desk::NoMemory;
use fixed_powers::Powers;
use node_ranges::{Ranges, least_cost};
use offer_book::Book;
use price_lp::{Basis, COLD_ITERATIONS, LEAST_WEIGHT, Purpose, Simplex, SolveEnd};
use proof_tree::Leaf;
use std::alloc::Global;

// The most iterations of a solve that starts from a basis. Ranges near by take one to three as a rule; where steps are coarse and the
// limit binds they may take forty, of which the last ones hardly raise the bound. The prices so far bound as well as any, and a solve
// from the basis so far goes on where this one ended.
const NEAR_ITERATIONS: u32 = 12;

/// The parts of a tuner.
#[derive(Drop)]
pub(crate) struct Parts<'a> {
    /// The steps, priced one by one.
    pub sweep: Sweep<'a>,
    /// The linear program, on the heap: so parts are moved in little room on the stack.
    pub simplex: Box<Simplex<'a>>,
    /// The leaf that it proposes.
    pub proposal: Leaf,
    /// The leaf of prices of 0, without a multiplier of the limit.
    pub zeros: Leaf,
}

// A leaf goes a step.
fn take_step(step: Step, leaf: &mut Leaf)
    requires { IsPlaced (length leaf.old.prices) step }
    ensures { leaf.new ≡ stepped leaf.old step }
{
    match step {
        Step::Nothing => {}
        Step::Price { place, price } => leaf.prices.put(place, price),
        Step::Multiplier(mu) => leaf.mu = mu,
    }
}

// Solves a program from nothing.
fn solve_anew(simplex: &mut Simplex)
    ensures { simplex.new ≡ simplex.old }
{
    simplex.start_greedily();
    simplex.solve(COLD_ITERATIONS, None);
}

// Solves a program from a basis; where that isn't as it should be, from nothing.
fn solve_from(simplex: &mut Simplex, basis: &Basis)
    ensures { simplex.new ≡ simplex.old }
{
    simplex.start_from(basis);
    if let SolveEnd::Stopped(_) = simplex.solve(NEAR_ITERATIONS, None) {
        solve_anew(simplex);
    }
}

// Gives each line of a program its range.
fn set_ranges(simplex: &mut Simplex, lines: u16, ranges: &Ranges)
    requires { lines ≡ length ranges.now.lines }
    ensures { simplex.new ≡ simplex.old }
{
    let intervals = ranges.intervals();
    for line in 0..lines {
        simplex.set_range(line, intervals[usize::from(line)]);
    }
}

/// Solves a program for a purpose over ranges, an interval for each of so many lines, from a basis where there is one.
pub(crate) fn solve(
    simplex: &mut Simplex,
    lines: u16,
    ranges: &Ranges,
    purpose: Purpose,
    basis: Option<&Basis>,
)
    requires { lines ≡ length ranges.now.lines }
    ensures { simplex.new ≡ simplex.old }
{
    simplex.aim(purpose);
    set_ranges(simplex, lines, ranges);
    match basis {
        Some(basis) => solve_from(simplex, basis),
        None => solve_anew(simplex),
    }
}

// What a program is solved for, for a leaf that weighs the cost by so much.
fn purpose_of(rho: u64) -> Purpose {
    if rho == 0 {
        Purpose::Needs
    } else {
        Purpose::Cost
    }
}

// The better of two leaves over the given ranges that both weigh the cost, or both don't: the other where it shows a greater least cost
// than the one, of which that is known.
fn better_of(
    columns: &mut Columns,
    given: &Given,
    shown: i128,
    other: &Leaf,
    into: &mut Leaf,
) -> i128
    requires own { AreColumnsOf given.now columns.old }
    requires other { IsLeaf (length given.now.book.now.needs) other.now }
    requires other_unweighted { other.now.weights ≡ [] }
    requires into { IsLeaf (length given.now.book.now.needs) into.old }
    requires unweighted { into.old.weights ≡ [] }
    requires shown { shown ≡ shown_at given.now into.old }
    ensures own { AreColumnsOf given.now columns.new }
    ensures better { IsBetter given.now.yield_units.0 given.now.book.now given.now.ranges.now other.now into.old into.new }
    ensures weight { LEAST_WEIGHT ≤ other.now.rho → LEAST_WEIGHT ≤ into.old.rho → LEAST_WEIGHT ≤ into.new.rho }
    ensures shown { result ≡ shown_at given.now into.new }
{
    if (other.rho == 0) != (into.rho == 0) {
        return shown;
    }
    let reached = least_cost(other.rho, columns.bound(given.ranges, other));
    if reached <= shown {
        return shown;
    }
    copy_leaf(given.book.need_count(), other, into);
    reached
}

impl<'a> Parts<'a> {
    /// The parts for a book, by powers of the low side.
    pub(crate) fn make(
        alloc: Global,
        book: &'a Book,
        powers: &Powers,
    ) -> Result<Parts<'a>, NoMemory>
        requires { IsLowTable powers.now }
        ensures { IfOk result (AreParts powers.now.yield_units book.now) }
    {
        Ok(Parts {
            sweep: Sweep::make(alloc, book, powers)?,
            simplex: Box::new(alloc, Simplex::make(alloc, book, powers)?)?,
            proposal: Leaf::of_zeros(alloc, true, book.need_count())?,
            zeros: Leaf::of_zeros(alloc, true, book.need_count())?,
        })
    }

    // Puts into the proposal what the linear program proposes, and gives the least cost that it shows.
    fn propose(&mut self, given: &Given, basis: Option<&Basis>) -> i128
        requires { ArePartsFor given.now self.old }
        ensures parts { ArePartsFor given.now self.new }
        ensures unweighted { self.new.proposal.weights ≡ [] }
        ensures alike { WeighAlike given.now.leaf.now self.new.proposal }
        ensures weight { 1 ≤ given.now.leaf.now.rho → LEAST_WEIGHT ≤ self.new.proposal.rho }
        ensures shown { result ≡ shown_at given.now self.new.proposal }
    {
        let rho = given.leaf.rho;
        let lines = given.book.line_count();
        solve(
            &mut self.simplex,
            lines,
            given.ranges,
            purpose_of(rho),
            basis,
        );
        self.proposal.rho = rho;
        self.simplex.propose(&mut self.proposal);
        let bound = self.sweep.columns.bound(given.ranges, &self.proposal);
        least_cost(self.proposal.rho, bound)
    }

    // Puts the better leaf of the given one, its steps, and what the linear program proposes into another, with the least cost that it
    // shows.
    fn improve(&mut self, given: &Given, basis: Option<&Basis>, into: &mut Leaf) -> i128
        requires parts { ArePartsFor given.now self.old }
        requires into { length into.old.prices ≡ length given.now.book.now.needs }
        ensures parts { ArePartsFor given.now self.new }
        ensures improved { IsImproved given.now.yield_units.0 given.now.book.now given.now.ranges.now given.now.leaf.now into.new }
        ensures weight { LEAST_WEIGHT ≤ given.now.leaf.now.rho → LEAST_WEIGHT ≤ into.new.rho }
        ensures shown { result ≡ shown_at given.now into.new }
    {
        let dates = given.book.need_count();
        let best = self.sweep.best_step(given);
        let reached = least_cost(given.leaf.rho, best.bound);
        let proposed = self.propose(given, basis);
        if proposed > reached {
            copy_leaf(dates, &self.proposal, into);
            return proposed;
        }
        copy_leaf(dates, given.leaf, into);
        take_step(best.step, into);
        reached
    }

    // The better of the leaf of prices of 0 that weighs the cost as the given one does, and another, which shows a least cost that is
    // known.
    fn or_zeros(&mut self, given: &Given, shown: i128, into: &mut Leaf) -> i128
        requires parts { ArePartsFor given.now self.old }
        requires into { IsLeaf (length given.now.book.now.needs) into.old }
        requires unweighted { into.old.weights ≡ [] }
        requires shown { shown ≡ shown_at given.now into.old }
        ensures parts { ArePartsFor given.now self.new }
        ensures better { IsBetter given.now.yield_units.0 given.now.book.now given.now.ranges.now (zeros_like given.now.book.now given.now.leaf.now) into.old into.new }
        ensures weight { LEAST_WEIGHT ≤ given.now.leaf.now.rho → LEAST_WEIGHT ≤ into.old.rho → LEAST_WEIGHT ≤ into.new.rho }
        ensures shown { result ≡ shown_at given.now into.new }
    {
        self.zeros.rho = given.leaf.rho;
        better_of(&mut self.sweep.columns, given, shown, &self.zeros, into)
    }

    /// Puts the better leaf over the given ranges into another, as [`Tuner::tune`](crate::Tuner::tune) says.
    pub(crate) fn tune(
        &mut self,
        given: &Given,
        start: Option<&Leaf>,
        basis: Option<&Basis>,
        into: &mut Leaf,
    ) -> i128
        requires parts { ArePartsFor given.now self.old }
        requires start { IfSome start (λ other. IsLeaf (length given.now.book.now.needs) other.now) }
        requires start_unweighted { IfSome start (λ other. other.now.weights ≡ []) }
        requires into { length into.old.prices ≡ length given.now.book.now.needs }
        ensures parts { ArePartsFor given.now self.new }
        ensures improved { IsImproved given.now.yield_units.0 given.now.book.now given.now.ranges.now given.now.leaf.now into.new }
        ensures start { IfSome start.entry (λ other. ShowsNoGreater given.now.yield_units.0 given.now.book.now given.now.ranges.now other.now into.new) }
        ensures zeros { ShowsNoGreater given.now.yield_units.0 given.now.book.now given.now.ranges.now (zeros_like given.now.book.now given.now.leaf.now) into.new }
        ensures weight { LEAST_WEIGHT ≤ given.now.leaf.now.rho → IfSome start.entry (λ other. LEAST_WEIGHT ≤ other.now.rho) → LEAST_WEIGHT ≤ into.new.rho }
        ensures shown { result ≡ shown_at given.now into.new }
    {
        let shown = self.improve(given, basis, into);
        let shown = self.or_zeros(given, shown, into);
        match start {
            Some(start) => better_of(&mut self.sweep.columns, given, shown, start, into),
            None => shown,
        }
    }
}
