//! Improving a leaf.
ghost use Rattle.std.specs.Prelude.{[], ◌≡◌, ◌<◌, ◌≤◌, ◌^◌, false, length, unsigned_abs, IfOk, IfSome};
ghost use Rattle.fixed_powers.specs.DiscountPowers.{IsLowTable};
ghost use Rattle.dual_bound.specs.LeafBound.{bound_of, least_cost_of};
ghost use Rattle.node_ranges.specs.Ranges.{AreOf};
ghost use Rattle.proof_tree.specs.Tree.{IsLeaf};
ghost use Rattle.dual_tune.specs.Steps.{IsImproved, ShowsNoGreater, zeros_like};

use crate::given::Given;
use crate::parts::{Parts, solve};
use escrow_desk::NoMemory;
use escrow_units::YieldUnits;
use fixed_powers::Powers;
use node_ranges::Ranges;
use offer_book::Book;
use price_lp::{Basis, LEAST_WEIGHT, Purpose};
use proof_tree::Leaf;
use std::alloc::Global;
use std::marker::Model;

/// What improves leaves of one book at one yield: the linear program, the columns, and room for what is tried. It is made once;
/// after that nothing takes memory. Contracts see the book and the yield.
#[derive(Drop)]
pub struct Tuner<'a> {
    book: &'a Book,
    yield_units: YieldUnits,
    parts: Parts<'a>,
}

impl<'a> Model for Tuner<'a> {
    ghost use Rattle.dual_tune.specs.Tuner.{AreParts, TunerContents};

    ghost Value = { TunerContents };

    ghost view = { λ t. record { book = t.book.now; yield_units = t.yield_units.0 } };

    ghost invariant = { λ t. AreParts t.yield_units.0 t.book.now t.parts };
}

impl<'a> Tuner<'a> {
    /// What improves leaves of a book, by powers of the low side, of 0 to 14,400 index days.
    ///
    /// # Errors
    ///
    /// Where memory ran out.
    pub fn make(alloc: Global, book: &'a Book, powers: &Powers) -> Result<Tuner<'a>, NoMemory>
        requires powers { IsLowTable powers.now }
        ensures { IfOk result (λ tuner. tuner ≡ record { book = book.now; yield_units = powers.now.yield_units }) }
    {
        let parts = Parts::make(alloc, book, powers)?;
        Ok(Tuner {
            book,
            yield_units: powers.yield_units(),
            parts,
        })
    }

    /// Puts into a leaf, which has a price for each need date, the one over ranges that shows the greatest least cost: of a given leaf,
    /// each of its steps, the leaf of prices of 0, and what the linear program proposes; where another leaf is given, that counts too.
    /// Neither has weights of sums. Either all of them weigh the cost or none: another leaf that doesn't as the given one is passed over. Where a basis is given, the
    /// program starts from it and takes twelve iterations at most; else it is solved from nothing. It answers the least cost that the
    /// leaf shows, in units of 1 / [`COEFFICIENT_SCALE`](offer_book::COEFFICIENT_SCALE) of a cent, and takes no memory.
    pub fn tune(
        &mut self,
        ranges: &Ranges,
        leaf: &Leaf,
        start: Option<&Leaf>,
        basis: Option<&Basis>,
        into: &mut Leaf,
    ) -> i128
        requires ranges { AreOf self.old.book ranges.now }
        requires leaf { IsLeaf (length self.old.book.needs) leaf.now }
        requires unweighted { leaf.now.weights ≡ [] }
        requires start { IfSome start (λ other. IsLeaf (length self.old.book.needs) other.now) }
        requires start_unweighted { IfSome start (λ other. other.now.weights ≡ []) }
        requires into { length into.old.prices ≡ length self.old.book.needs }
        ensures tuner { self.new ≡ self.old }
        ensures improved { IsImproved self.old.yield_units self.old.book ranges.now leaf.now into.new }
        ensures start { IfSome start.entry (λ other. ShowsNoGreater self.old.yield_units self.old.book ranges.now other.now into.new) }
        ensures zeros { ShowsNoGreater self.old.yield_units self.old.book ranges.now (zeros_like self.old.book leaf.now) into.new }
        ensures weight { LEAST_WEIGHT ≤ leaf.now.rho → IfSome start.entry (λ other. LEAST_WEIGHT ≤ other.now.rho) → LEAST_WEIGHT ≤ into.new.rho }
        ensures shown { result ≡ least_cost_of self.old.yield_units self.old.book ranges.now into.new }
    {
        // Ranges say here that their intervals are in order, as the given leaf has to know.
        let _ = ranges.intervals();
        let given = Given {
            book: self.book,
            yield_units: self.yield_units,
            ranges,
            leaf,
        };
        self.parts.tune(&given, start, basis, into)
    }

    /// Puts into a leaf, which has a price for each need date, what the linear program without the cost proposes over ranges. Where the
    /// leaf's bound is above 0, no permitted portfolio of the ranges meets the needs within the limit; the program finds such prices
    /// where its relaxation has no solution. Where a basis is given, it starts from that and takes twelve iterations at most; else it is
    /// solved from nothing. It answers the leaf's bound, and takes no memory.
    pub fn tune_without_cost(
        &mut self,
        ranges: &Ranges,
        basis: Option<&Basis>,
        into: &mut Leaf,
    ) -> i128
        requires ranges { AreOf self.old.book ranges.now }
        requires into { length into.old.prices ≡ length self.old.book.needs }
        ensures tuner { self.new ≡ self.old }
        ensures leaf { IsLeaf (length self.old.book.needs) into.new }
        ensures unweighted { into.new.weights ≡ [] }
        ensures without_cost { into.new.rho ≡ 0 }
        ensures bound { result ≡ bound_of self.old.yield_units self.old.book ranges.now into.new }
    {
        let lines = self.book.line_count();
        solve(
            &mut self.parts.simplex,
            lines,
            ranges,
            Purpose::Needs,
            basis,
        );
        into.rho = 0;
        self.parts.simplex.propose(into);
        self.parts.sweep.columns.bound(ranges, into)
    }

    /// Solves the linear program of the cost over ranges, from a basis and by twelve iterations at most, for
    /// [`amount`](Tuner::amount) to tell. It takes no memory.
    pub fn stand(&mut self, ranges: &Ranges, basis: &Basis)
        requires { AreOf self.old.book ranges.now }
        ensures { self.new ≡ self.old }
    {
        let lines = self.book.line_count();
        solve(
            &mut self.parts.simplex,
            lines,
            ranges,
            Purpose::Cost,
            Some(basis),
        );
    }

    /// How much of a line, counted from 0, the solution that was last found buys at par, in units of 2^-10 of a cent.
    pub fn amount(&self, line: u16) -> i64 {
        self.parts.simplex.amount(line)
    }

    /// Whether a line, counted from 0, is in the basis of that solution: its amount may be anything within its range.
    pub fn is_basic(&self, line: u16) -> bool {
        self.parts.simplex.is_basic(line)
    }

    /// The basis of that solution.
    ///
    /// # Errors
    ///
    /// Where memory ran out.
    pub fn basis(&self, alloc: Global) -> Result<Basis, NoMemory> {
        let mut basis = self.parts.simplex.new_basis(alloc)?;
        self.parts.simplex.save(&mut basis);
        Ok(basis)
    }

    /// The bound of a leaf over ranges, scaled. It takes no memory.
    pub fn bound(&mut self, ranges: &Ranges, leaf: &Leaf) -> i128
        requires ranges { AreOf self.old.book ranges.now }
        requires leaf { IsLeaf (length self.old.book.needs) leaf.now }
        ensures tuner { self.new ≡ self.old }
        ensures value { result ≡ bound_of self.old.yield_units self.old.book ranges.now leaf.now }
        ensures size { unsigned_abs result < 10 ^ 37 }
    {
        self.parts.sweep.columns.bound(ranges, leaf)
    }
}

/// A better leaf over ranges: the one that shows the greatest least cost, of the given leaf, each of its steps, and what the linear
/// program proposes for these ranges. It weighs the cost where the given leaf does. Neither has weights of sums.
///
/// Conditions are those of [`bound`](dual_bound::bound).
///
/// # Errors
///
/// Where memory ran out.
pub fn improve(
    alloc: Global,
    book: &Book,
    powers: &Powers,
    ranges: &Ranges,
    leaf: &Leaf,
) -> Result<Leaf, NoMemory>
    requires powers { IsLowTable powers.now }
    requires ranges { AreOf book.now ranges.now }
    requires leaf { IsLeaf (length book.now.needs) leaf.now }
    requires unweighted { leaf.now.weights ≡ [] }
    ensures { IfOk result (IsImproved powers.now.yield_units book.now ranges.now leaf.now) }
{
    let mut tuner = Tuner::make(alloc, book, powers)?;
    let mut improved = Leaf::of_zeros(alloc, true, book.need_count())?;
    tuner.tune(ranges, leaf, None, None, &mut improved);
    Ok(improved)
}
