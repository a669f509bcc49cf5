//! What a search holds: the case, what prices its nodes, the ranges of the node at hand, and the best plan so far.
ghost use Rattle.std.specs.Prelude.{[], ◌≡◌, ◌≤◌, ◌<◌, ◌-◌, ◌^◌, ◌≤ℤ◌, ◌<ℤ◌, false, true, pos, length, ℕ, IfOk, IfSome, OnOk, MatchOption, unsigned_abs};
ghost use Rattle.case_file.specs.Case.{CaseContents};
ghost use Rattle.dual_bound.specs.LeafBound.{bound_of, least_cost_of};
ghost use Rattle.node_ranges.specs.Ranges.{AreTight, is_single};
ghost use Rattle.node_ranges.specs.Claims.{bears_out, low_ends};
ghost use Rattle.proof_tree.specs.Tree.{IsLeaf};
ghost use Rattle.halving_tree.specs.Base.{reach_leaf};
ghost use Rattle.halving_tree.specs.Halving.{high_ends, is_unreached};
ghost use Rattle.offer_book.specs.Portfolio.{IsPermitted};
ghost use Rattle.search_tree.specs.Growing.{IsBought, IsLostPoint, IsPriced, IsTried, ShowsNone, claim_of_best};
ghost use Rattle.branch_search.specs.Parts.{AreSameBut, IsCounted, best_cents};
ghost use Rattle.search_tree.specs.Best.{IsAtMost, IsNoDearer};

use crate::found::Best;
use crate::gaps::least_gap;
use cash_table::{Plan, cost, first_short, within_limit};
use dual_tune::Tuner;
use escrow_desk::NoMemory;
use escrow_units::{Cents, Day};
use halving_tree::{SplitRule, put_reach};
use node_pool::NodeId;
use node_ranges::Ranges;
use offer_book::Book;
use plan_finder::{Finder, YieldLimit};
use price_lp::{Basis, LEAST_WEIGHT};
use proof_tree::Leaf;
use search_tree::{Closing, Priced};
use std::alloc::Global;
use std::marker::Model;

/// What a search holds. Contracts see the case, the ranges of the node at hand, and the best plan so far.
#[derive(Drop)]
pub(crate) struct Search<'a> {
    /// The book of the case.
    pub book: &'a Book,
    /// The limit on the yield.
    pub limit: YieldLimit,
    /// By how much a rival may cost less, in cents.
    pub allowance: Cents,
    /// The most nodes.
    pub budget: u32,
    /// What prices leaves.
    pub tuner: Tuner<'a>,
    /// The base leaf, which each node's leaf improves.
    pub base: Leaf,
    /// Room for a leaf that weighs needs alone.
    pub reach: Leaf,
    /// The ranges of the root.
    pub root: Ranges,
    /// The ranges of the node at hand.
    pub ranges: Ranges,
    /// Room for a portfolio of the ranges.
    pub plan: Plan,
    /// The best plan so far.
    pub best: Option<Best>,
    /// Where the linear program of each node stands, by the nodes' numbers.
    pub bases: Vec<Basis>,
    /// Where the linear program without the cost stood last, if it was solved.
    pub costless: Option<Basis>,
    /// What dives for plans at nodes.
    pub finder: Finder<'a>,
}

// One node in so many is dived at.
const NODES_A_DIVE: u32 = 50;

impl<'a> Model for Search<'a> {
    ghost use Rattle.branch_search.specs.Parts.{AreParts, SearchContents};
    ghost use Rattle.branch_search.specs.Search.{searched};

    ghost Value = { SearchContents };

    ghost view = { λ s. record { case = searched s.book.now s.limit s.allowance.0 s.budget; ranges = s.ranges; best = s.best } };

    ghost invariant = { λ s. AreParts (searched s.book.now s.limit s.allowance.0 s.budget) s.tuner s.base s.reach s.root s.ranges s.plan s.best s.finder };
}

// Makes of a portfolio that of the high ends of ranges. It takes no memory.
fn put_high_ends(book: &Book, ranges: &Ranges, plan: &mut Plan)
    requires tight { AreTight book.now ranges.now }
    requires plan { length plan.old ≡ length book.now.lines }
    ensures value { plan.new ≡ high_ends ranges.now }
    ensures permitted { IsPermitted book.now plan.new }
{
    for line in 0..book.line_count() {
        plan.put(line, ranges.high(line));
    }
}

// Makes of a portfolio that of the low ends of ranges. It takes no memory.
fn put_low_ends(book: &Book, ranges: &Ranges, plan: &mut Plan)
    requires tight { AreTight book.now ranges.now }
    requires plan { length plan.old ≡ length book.now.lines }
    ensures value { plan.new ≡ low_ends ranges.now }
    ensures permitted { IsPermitted book.now plan.new }
{
    for line in 0..book.line_count() {
        plan.put(line, ranges.low(line));
    }
}

// Where the linear program of a node stands, where it is known.
fn basis_at(bases: &[Basis], node: Option<NodeId>) -> Option<&Basis> {
    let node = node?;
    bases.get(node.0 as usize)
}

impl<'a> Search<'a> {
    /// Prices the ranges at hand, those of the next node, and keeps where its linear program stands. A parent's leaf counts where there
    /// is one, which has no weights of sums, and the program starts where the parent's stands.
    pub(crate) fn price(
        &mut self,
        alloc: Global,
        parent: Option<&Leaf>,
        node: Option<NodeId>,
    ) -> Result<Priced, NoMemory>
        requires parent { IfSome parent (λ leaf. IsLeaf (length self.old.case.book.needs) leaf.now) }
        requires unweighted { IfSome parent (λ leaf. leaf.now.weights ≡ []) }
        requires weight { IfSome parent (λ leaf. LEAST_WEIGHT ≤ leaf.now.rho) }
        ensures search { self.new ≡ self.old }
        ensures priced { IfOk result (IsPriced self.old.case self.old.ranges) }
        ensures parent { IfOk result (λ priced. IfSome parent.entry (λ leaf. 1 ≤ leaf.now.rho → least_cost_of (self.old.case.limit - 1) self.old.case.book self.old.ranges leaf.now ≤ℤ priced.bound)) }
    {
        let mut leaf = Leaf::of_zeros(alloc, true, self.book.need_count())?;
        let basis = basis_at(self.bases.as_slice(), node);
        let bound = self
            .tuner
            .tune(&self.ranges, &self.base, parent, basis, &mut leaf);
        let basis = self.tuner.basis(alloc)?;
        self.bases.push(basis)?;
        Ok(Priced { leaf, bound })
    }

    /// Prices the ranges of the root, from nothing and, where a basis is offered, from that too; the greater bound counts. It keeps where
    /// its linear program stands.
    pub(crate) fn price_root(
        &mut self,
        alloc: Global,
        offered: Option<Basis>,
    ) -> Result<Priced, NoMemory>
        ensures search { self.new ≡ self.old }
        ensures priced { IfOk result (IsPriced self.old.case self.old.ranges) }
    {
        self.bases.clear();
        let root = self.price(alloc, None, None)?;
        let Some(basis) = offered else {
            return Ok(root);
        };
        self.bases.push(basis)?;
        let near = self.price(alloc, None, Some(NodeId(1)))?;
        if root.bound < near.bound {
            self.bases.as_mut_slice().reverse();
            self.bases.truncate(1);
            return Ok(near);
        }
        self.bases.truncate(1);
        Ok(root)
    }

    /// Gives away where the linear program of the root stands, where that is known.
    pub(crate) fn take_root_basis(&mut self) -> Option<Basis>
        ensures { self.new ≡ self.old }
    {
        self.bases.truncate(1);
        self.bases.pop()
    }

    /// Whether a bound bears out that no rival costs less than the best plan by more than the allowance.
    pub(crate) fn is_borne(&self, bound: i128) -> bool
        requires { unsigned_abs bound < 10 ^ 28 }
        ensures { result ≡ bears_out bound (claim_of_best self.now.case (best_cents self.now.best)) }
    {
        // A book keeps its limits, so that what a plan costs has room.
        prove!(self.book.line_count() > 0);
        match &self.best {
            Some(best) => least_gap(bound, best.cost) <= self.allowance.0,
            None => false,
        }
    }

    // Whether the needs up to a day are more than all that the ranges at hand can pay by then.
    fn is_short_by(&mut self, day: Day) -> bool
        ensures search { self.new ≡ self.old }
        ensures yes { result ≡ true → pos 0 <ℤ bound_of (self.old.case.limit - 1) self.old.case.book self.old.ranges (reach_leaf self.old.case.book.needs day) }
        ensures no { result ≡ false → bound_of (self.old.case.limit - 1) self.old.case.book self.old.ranges (reach_leaf self.old.case.book.needs day) ≤ℤ pos 0 }
    {
        put_reach(self.book, day, &mut self.reach);
        0 < self.tuner.bound(&self.ranges, &self.reach)
    }

    /// The first day on which even the high ends of the ranges at hand are short, where the needs up to it are more than all that
    /// the ranges can pay by then.
    #[inline(never)]
    pub(crate) fn unreached(&mut self) -> Option<Day>
        ensures search { self.new ≡ self.old }
        ensures some { IfSome result (λ day. pos 0 <ℤ bound_of (self.old.case.limit - 1) self.old.case.book self.old.ranges (reach_leaf self.old.case.book.needs day)) }
        ensures none { result ≡ None → is_unreached self.old.case self.old.ranges ≡ false }
    {
        // A book keeps its limits.
        prove!(self.book.line_count() > 0);
        put_high_ends(self.book, &self.ranges, &mut self.plan);
        // Hardly ever is a node short, and the finder tells at once that it isn't.
        if self.finder.meets(&self.plan) {
            return None;
        }
        let day = first_short(self.book, &self.plan)?;
        if self.is_short_by(day) {
            Some(day)
        } else {
            None
        }
    }

    // Takes the plan of the low ends for the best, where it meets the needs within the limit and there is none as cheap.
    #[inline(never)]
    fn take_plan(&mut self, alloc: Global) -> Result<(), NoMemory>
        ensures kept { OnOk result (AreSameBut self.old self.new) }
        ensures no_dearer { OnOk result (IsNoDearer (best_cents self.old.best) (best_cents self.new.best)) }
        ensures taken { OnOk result (IsCounted self.old.case (low_ends self.old.ranges) (best_cents self.new.best)) }
    {
        put_low_ends(self.book, &self.ranges, &mut self.plan);
        if first_short(self.book, &self.plan).is_some()
            || !within_limit(alloc, self.book, &self.plan, self.limit.units())?
        {
            return Ok(());
        }
        let cost = cost(self.book, &self.plan);
        let plan = self.plan.copy(alloc)?;
        self.offer(Best { plan, cost });
        Ok(())
    }

    /// Takes a plan for the best, where there is none as cheap.
    pub(crate) fn offer(&mut self, offered: Best)
        requires { IsBought self.old.case.limit self.old.case.book offered.plan offered.cost.0 }
        ensures kept { AreSameBut self.old self.new }
        ensures no_dearer { IsNoDearer (best_cents self.old.best) (best_cents self.new.best) }
        ensures taken { IsAtMost (best_cents self.new.best) offered.cost.0 }
    {
        if let Some(best) = &self.best {
            if best.cost.0 <= offered.cost.0 {
                return;
            }
        }
        self.best = Some(offered);
    }

    /// Dives for a plan at one node in fifty, of the ranges at hand; a cheaper one becomes the best.
    pub(crate) fn dive(&mut self, node: NodeId) -> Result<(), NoMemory>
        ensures kept { OnOk result (AreSameBut self.old self.new) }
        ensures no_dearer { OnOk result (IsNoDearer (best_cents self.old.best) (best_cents self.new.best)) }
    {
        if node.0 % NODES_A_DIVE > 0 {
            return Ok(());
        }
        let basis = self.bases.get(node.0 as usize);
        if let Some(found) = self.finder.dive(&self.ranges, basis)? {
            self.offer(Best {
                plan: found.plan,
                cost: found.cost,
            });
        }
        Ok(())
    }

    /// A leaf that shows that no permitted portfolio of the ranges at hand meets the needs within the limit. It is looked for only where
    /// there is no plan, and the ranges hold several portfolios.
    #[inline(never)]
    pub(crate) fn infeasible(&mut self, alloc: Global) -> Result<Option<Leaf>, NoMemory>
        ensures search { OnOk result (self.new ≡ self.old) }
        ensures shown { IfOk result (λ found. IfSome found (ShowsNone self.old.case self.old.ranges)) }
    {
        if self.best.is_some() || self.ranges.single() {
            return Ok(None);
        }
        let basis = self.costless.as_ref();
        let bound = self
            .tuner
            .tune_without_cost(&self.ranges, basis, &mut self.reach);
        self.costless = Some(self.tuner.basis(alloc)?);
        if bound <= 0 {
            return Ok(None);
        }
        let leaf = self.reach.copy(alloc)?;
        Ok(Some(leaf))
    }

    // How a node of the ranges at hand is closed, whose leaf has this bound. The portfolio of a point may become the best one.
    fn closed_by(&mut self, alloc: Global, bound: i128) -> Result<Closing, NoMemory>
        requires { unsigned_abs bound < 10 ^ 28 }
        ensures kept { OnOk result (AreSameBut self.old self.new) }
        ensures no_dearer { OnOk result (IsNoDearer (best_cents self.old.best) (best_cents self.new.best)) }
        ensures tried { OnOk result (IfOk result (IsTried self.old.case (best_cents self.new.best) self.old.ranges bound)) }
    {
        if self.is_borne(bound) {
            return Ok(Closing::Borne);
        }
        if let Some(day) = self.unreached() {
            return Ok(Closing::Unreached(day));
        }
        if self.ranges.single() {
            // A book keeps its limits.
            prove!(self.book.line_count() > 0);
            self.take_plan(alloc)?;
            return Ok(Closing::Point);
        }
        Ok(Closing::Open)
    }

    /// How a node of the ranges at hand is closed, whose leaf has this bound. Where there is no plan, it is first priced without the
    /// cost. Where the relaxation leads, it may be dived at then. A portfolio that is found on the way may become the best one.
    pub(crate) fn closing(
        &mut self,
        alloc: Global,
        rule: SplitRule,
        node: NodeId,
        bound: i128,
    ) -> Result<Closing, NoMemory>
        requires { unsigned_abs bound < 10 ^ 28 }
        ensures kept { OnOk result (AreSameBut self.old self.new) }
        ensures no_dearer { OnOk result (IsNoDearer (best_cents self.old.best) (best_cents self.new.best)) }
        ensures tried { OnOk result (IfOk result (IsTried self.old.case (best_cents self.new.best) self.old.ranges bound)) }
    {
        if let Some(leaf) = self.infeasible(alloc)? {
            return Ok(Closing::Infeasible(leaf));
        }
        if rule == SplitRule::Relaxation {
            self.dive(node)?;
        }
        self.closed_by(alloc, bound)
    }
}
