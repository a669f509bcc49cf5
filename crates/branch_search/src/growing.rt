//! How the trees of a search grow: in each run one grows from the root by one rule.
ghost use Rattle.std.specs.Prelude.{[], ◌≡◌, ◌≤◌, ◌<◌, ◌+◌, ◌-◌, ◌≤ℤ◌, ◌⊎◌, true, false, length, ℕ, None, IfOk, IfSome, IsTrue, OnOk};
ghost use Rattle.dual_bound.specs.LeafBound.{bound_of};
ghost use Rattle.node_ranges.specs.Ranges.{is_proper, is_single, narrowed};
ghost use Rattle.proof_tree.specs.Tree.{IsLeaf};
ghost use Rattle.proof_tree.specs.declared.tree.Part.TheVariants as part;
ghost use Rattle.node_pool.specs.Pool.{IsInHand};
ghost use Rattle.search_tree.specs.Growing.{GoesOn, HasGrown, IsHeld, IsPopped, node_of, obeys};
ghost use Rattle.branch_search.specs.Parts.{AreSameBut, best_cents};
ghost use Rattle.search_tree.specs.Best.{CoversBackward, IsNoDearer};
ghost use Rattle.branch_search.specs.Growth.{IsGrowth, IsSide, IsTakenTo, left_to_do};

use crate::found::Found;
use crate::gaps::whole_cents;
use crate::parts::Search;
use crate::watcher::{Sight, Standing, Watcher};
use escrow_desk::NoMemory;
use escrow_units::Cents;
use halving_tree::{Split, SplitRule};
use node_pool::NodeId;
use price_lp::LEAST_WEIGHT;
use proof_tree::{Leaf, Nodes, Part};
use search_tree::{Closing, Priced, SearchTree};
use std::alloc::Global;

/// What a run's tree shows whose budget is spent.
#[derive(Drop)]
pub(crate) struct Shown {
    /// The tree, in preorder.
    pub tree: Nodes,
    /// The greatest number that the tree bears out, in cents.
    pub bound: Cents,
}

/// How a run ends.
#[derive(Drop)]
pub(crate) enum RunEnd {
    /// Its tree is closed, and there is a plan.
    Found(Found),
    /// Its tree is closed, and shows that there is no rival.
    NoRival(Nodes),
    /// Its budget is spent.
    Spent(Shown),
}

/// Of two, the one whose bound is greater; the first where they are equal.
pub(crate) fn greater(first: Shown, second: Shown) -> Shown
    ensures one { (result ≡ first) ⊎ (result ≡ second) }
    ensures first { first.bound.0 ≤ result.bound.0 }
    ensures second { second.bound.0 ≤ result.bound.0 }
{
    if second.bound.0 <= first.bound.0 {
        first
    } else {
        second
    }
}

/// How the growth of a tree ends.
#[derive(Clone, Copy, Debug, PartialEq, Eq)]
pub(crate) enum Growth {
    /// Each node is closed or split.
    Closed,
    /// A node that waits is to be split, and there is no room for its sides; it has this bound, which is the least of those that
    /// wait.
    Spent(i128),
}

/// The two sides of a split, priced.
#[derive(Drop)]
struct Sides {
    left: Priced,
    right: Priced,
}

impl<'a> Search<'a> {
    // Prices a side of a split of the ranges at hand, and goes back to them.
    fn price_side(
        &mut self,
        alloc: Global,
        split: Split,
        right: bool,
        parent: &Leaf,
        node: NodeId,
    ) -> Result<Priced, NoMemory>
        requires proper { IsTrue (is_proper self.old.ranges (part.Line split.line) split.at) }
        requires line { split.line < length self.old.case.book.lines }
        requires parent { IsLeaf (length self.old.case.book.needs) parent.now }
        requires unweighted { parent.now.weights ≡ [] }
        requires weight { LEAST_WEIGHT ≤ parent.now.rho }
        ensures search { OnOk result (self.new ≡ self.old) }
        ensures side { IfOk result (IsSide self.old.case self.old.ranges split.line split.at right parent.now) }
    {
        let line = Part::Line(split.line);
        let whole = self.ranges.interval(line);
        self.ranges.narrow(self.book, line, split.at, right);
        let priced = self.price(alloc, Some(parent), Some(node))?;
        self.ranges.restore(line, whole);
        Ok(priced)
    }

    // Prices both sides of a split of the ranges at hand.
    fn price_sides(
        &mut self,
        alloc: Global,
        split: Split,
        parent: &Leaf,
        node: NodeId,
    ) -> Result<Sides, NoMemory>
        requires proper { IsTrue (is_proper self.old.ranges (part.Line split.line) split.at) }
        requires line { split.line < length self.old.case.book.lines }
        requires parent { IsLeaf (length self.old.case.book.needs) parent.now }
        requires unweighted { parent.now.weights ≡ [] }
        requires weight { LEAST_WEIGHT ≤ parent.now.rho }
        ensures search { OnOk result (self.new ≡ self.old) }
        ensures left { IfOk result (λ sides. IsSide self.old.case self.old.ranges split.line split.at false parent.now sides.left) }
        ensures right { IfOk result (λ sides. IsSide self.old.case self.old.ranges split.line split.at true parent.now sides.right) }
    {
        let left = self.price_side(alloc, split, false, parent, node)?;
        let right = self.price_side(alloc, split, true, parent, node)?;
        Ok(Sides { left, right })
    }

    // Takes an open node in hand further, which the ranges at hand are of: it is split, or waits again where there is no room for its
    // sides.
    fn go_on(
        &mut self,
        alloc: Global,
        rule: SplitRule,
        tree: &mut SearchTree,
        node: NodeId,
    ) -> Result<Option<Growth>, NoMemory>
        requires held { IsHeld self.old.case (obeys self.old.case rule) (best_cents self.old.best) tree.old.pool.states tree.old.nodes node.0 self.old.ranges }
        requires several { GoesOn self.old.case (best_cents self.old.best) self.old.ranges (node_of tree.old.nodes node.0).priced.bound }
        requires backward { CoversBackward self.old.case (best_cents self.old.best) }
        requires capacity { tree.old.pool.capacity ≡ self.old.case.budget }
        ensures search { OnOk result (self.new ≡ self.old) }
        ensures taken { OnOk result (IfOk result (IsTakenTo self.old.case (obeys self.old.case rule) (best_cents self.old.best) tree.new)) }
        ensures capacity { OnOk result (tree.new.pool.capacity ≡ tree.old.pool.capacity) }
        ensures goes_on { IfOk result (λ ended. ended ≡ None → left_to_do tree.new.pool ≤ left_to_do tree.old.pool) }
    {
        // A book keeps its limits.
        prove!(self.book.line_count() > 0);
        let pointed = self.pointed(rule, node);
        let split = rule.split(self.book, &self.ranges, pointed);
        if self.budget - tree.count() < 2 {
            let bound = tree.node(node).priced.bound;
            tree.put_back(node);
            return Ok(Some(Growth::Spent(bound)));
        }
        let sides = self.price_sides(alloc, split, &tree.node(node).priced.leaf, node)?;
        tree.split(node, split, sides.left, sides.right);
        Ok(None)
    }

    // Takes a node in hand further: it is closed or split; where there is no room for its sides, it waits again.
    fn take(
        &mut self,
        alloc: Global,
        rule: SplitRule,
        tree: &mut SearchTree,
        node: NodeId,
    ) -> Result<Option<Growth>, NoMemory>
        requires held { IsPopped self.old.case (obeys self.old.case rule) (best_cents self.old.best) tree.old.pool.states tree.old.nodes node.0 }
        requires backward { CoversBackward self.old.case (best_cents self.old.best) }
        requires capacity { tree.old.pool.capacity ≡ self.old.case.budget }
        ensures case { OnOk result (self.new.case ≡ self.old.case) }
        ensures no_dearer { OnOk result (IsNoDearer (best_cents self.old.best) (best_cents self.new.best)) }
        ensures taken { OnOk result (IfOk result (IsTakenTo self.old.case (obeys self.old.case rule) (best_cents self.new.best) tree.new)) }
        ensures capacity { OnOk result (tree.new.pool.capacity ≡ tree.old.pool.capacity) }
        ensures goes_on { IfOk result (λ ended. ended ≡ None → left_to_do tree.new.pool ≤ left_to_do tree.old.pool) }
    {
        // The nodes of a pool are one tree, and a book keeps its limits.
        prove!(tree.count() > 0);
        prove!(self.book.line_count() > 0);
        tree.ranges_of(node, self.book, &self.root, &mut self.ranges);
        match self.closing(alloc, rule, node, tree.node(node).priced.bound)? {
            Closing::Open => self.go_on(alloc, rule, tree, node),
            closing => {
                tree.close(node, closing);
                Ok(None)
            }
        }
    }

    // How far the growth of a tree is, where a node is taken.
    fn standing(&self, rule: SplitRule, tree: &SearchTree, node: NodeId) -> Standing
        requires { IsInHand tree.now.pool.states node.0 }
    {
        Standing {
            again: rule == SplitRule::Halving,
            nodes: tree.count(),
            budget: self.budget,
            bound: whole_cents(tree.node(node).priced.bound),
            best: self.best.as_ref().map(|best| best.cost),
        }
    }

    /// Grows a tree until each node is closed or split, or the budget is spent. A watcher sees each node that is taken.
    pub(crate) fn grow<W: Watcher>(
        &mut self,
        alloc: Global,
        rule: SplitRule,
        tree: &mut SearchTree,
        watcher: &mut W,
    ) -> Result<Growth, NoMemory>
        requires grown { HasGrown self.old.case (obeys self.old.case rule) (best_cents self.old.best) tree.old.pool.states tree.old.nodes }
        requires backward { CoversBackward self.old.case (best_cents self.old.best) }
        requires capacity { tree.old.pool.capacity ≡ self.old.case.budget }
        ensures case { OnOk result (self.new.case ≡ self.old.case) }
        ensures no_dearer { OnOk result (IsNoDearer (best_cents self.old.best) (best_cents self.new.best)) }
        ensures growth { OnOk result (IfOk result (IsGrowth self.old.case (obeys self.old.case rule) (best_cents self.new.best) tree.new)) }
        ensures capacity { OnOk result (tree.new.pool.capacity ≡ self.old.case.budget) }
    {
        while let Some(node) = tree.pop() {
            watcher.see(Sight::Node(self.standing(rule, tree, node)));
            if let Some(growth) = self.take(alloc, rule, tree, node)? {
                return Ok(growth);
            }
        }
        Ok(Growth::Closed)
    }
}
