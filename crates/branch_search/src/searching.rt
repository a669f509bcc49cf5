//! The search, from a case to what it comes to.
ghost use Rattle.std.specs.Prelude.{◌≡◌, ◌≤◌, ◌↔◌, ◌⊎◌, ◌<◌, ◌-◌, ◌^◌, None, IsNone, unsigned_abs, IfOk, IfSome, IfErr, OnOk};
ghost use Rattle.cash_table.specs.First.{first_short_of};
ghost use Rattle.cash_table.specs.Reach.{AreAllShort, IsInReach, plan_of_most};
ghost use Rattle.node_ranges.specs.Ranges.{root_of};
ghost use Rattle.branch_search.specs.Plain.{IsPlainWithin};
ghost use Rattle.branch_search.specs.Growth.{IsBegun, IsClosedTree, IsFullTree};
ghost use Rattle.search_tree.specs.Best.{IsNoDearer};
ghost use Rattle.search_tree.specs.Growing.{obeys};
ghost use Rattle.branch_search.specs.Parts.{AreSameBut, best_cents};
ghost use Rattle.branch_search.specs.Runs.{IsNoLessThan, IsRunEnd, IsSpentRun};
ghost use Rattle.branch_search.specs.Search.{EndsOf, IsFound, IsFoundBy, IsNoDearerThanBackward, IsOutcome, IsSearchable, IsShown, searched};

use crate::cheapest::cheapest;
use crate::found::{Best, Found, SearchEnd, Spent};
use crate::gaps::{greatest_cost, tree_gap};
use crate::growing::{Growth, RunEnd, Shown, greater};
use crate::hint::{Hint, best_of};
use crate::parts::Search;
use crate::watcher::{Sight, Watcher};
use bound_certificate::MOST_NODES;
use cash_table::{Plan, cost, out_of_reach};
use dual_tune::Tuner;
use escrow_desk::NoMemory;
use escrow_units::{AMOUNT_LIMIT, Cents, Day, GREATEST_YIELD, YieldUnits};
use halving_tree::{SplitRule, base_leaf};
use node_ranges::Ranges;
use offer_book::Book;
use plan_finder::{Finder, YieldLimit, find};
use proof_tree::Leaf;
use search_tree::SearchTree;
use std::alloc::Global;

// How much work the search for a plan before the first tree is at most, in sweeps.
const EFFORT: u32 = 30_000;

// How much work the search for a cheaper plan between two trees is at most for each node of the budget, in sweeps: each goes once
// through all columns of the linear program.
const SWEEPS_A_NODE: u32 = 30;

// The first day on which even the most of every line is short.
#[inline(never)]
fn day_out_of_reach(book: &Book) -> Option<Day>
    ensures value { result ≡ first_short_of book.now (plan_of_most book.now) }
    ensures none { IsNone result ↔ IsInReach book.now }
    ensures all_short { IfSome result (λ day. AreAllShort book.now day) }
{
    out_of_reach(book)
}

// What prices leaves one unit below a limit.
#[inline(never)]
fn tuner_of<'a>(alloc: Global, book: &'a Book, limit: &YieldLimit) -> Result<Tuner<'a>, NoMemory>
    ensures { IfOk result (λ tuner. tuner ≡ record { book = book.now; yield_units = limit.now - 1 }) }
{
    Tuner::make(alloc, book, limit.powers())
}

impl<'a> Search<'a> {
    // What a search of a case holds, at the ranges of the root, before there is a plan.
    #[inline(never)]
    fn start(
        alloc: Global,
        book: &'a Book,
        limit: YieldUnits,
        allowance: Cents,
        budget: u32,
    ) -> Result<Search<'a>, NoMemory>
        requires { IsSearchable (searched book.now limit.0 allowance.0 budget) }
        ensures { IfOk result (λ search. search ≡ record { case = searched book.now limit.0 allowance.0 budget; ranges = root_of book.now; best = None }) }
    {
        // A book keeps its limits.
        prove!(book.line_count() > 0);
        let base = base_leaf(alloc, book)?;
        let reach = Leaf::of_zeros(alloc, false, book.need_count())?;
        let root = Ranges::root(alloc, book)?;
        let ranges = Ranges::root(alloc, book)?;
        let plan = Plan::zero(alloc, book)?;
        let limit = YieldLimit::make(alloc, limit)?;
        let finder = Finder::make(alloc, book, &limit)?;
        let tuner = tuner_of(alloc, book, &limit)?;
        Ok(Search {
            book,
            limit,
            allowance,
            budget,
            tuner,
            base,
            reach,
            root,
            ranges,
            plan,
            best: None,
            bases: Vec::new(alloc),
            costless: None,
            finder,
        })
    }

    // Takes the cheapest of the backward plan, the one that it is trimmed to and that of a hint for the best, of those within the limit.
    #[inline(never)]
    fn take_cheapest(&mut self, alloc: Global, hint: &Hint) -> Result<(), NoMemory>
        requires none { self.old.best ≡ None }
        ensures kept { OnOk result (AreSameBut self.old self.new) }
        ensures backward { OnOk result (IsNoDearerThanBackward self.old.case.limit self.old.case.book (best_cents self.new.best)) }
    {
        if let Some(plan) = cheapest(alloc, self.book, &self.limit, hint)? {
            let cost = cost(self.book, &plan);
            self.best = Some(Best { plan, cost });
        }
        Ok(())
    }

    // Whether no other plan is to be looked for: the best one costs at most a target, or, without one, a leaf of the ranges at hand shows
    // that there is none.
    fn is_settled(&mut self, alloc: Global, target: Cents) -> Result<bool, NoMemory>
        ensures { OnOk result (self.new ≡ self.old) }
    {
        match &self.best {
            Some(best) => Ok(best.cost.0 <= target.0),
            None => Ok(self.infeasible(alloc)?.is_some()),
        }
    }

    // Looks for a plan that costs no more than the backward one, nor than that of a hint; it ends early where a plan costs just what the
    // root's bound says, or a leaf shows that there is none.
    #[inline(never)]
    fn find_plan(&mut self, alloc: Global, bound: i128, hint: &Hint) -> Result<(), NoMemory>
        requires bound { unsigned_abs bound < 10 ^ 28 }
        requires none { self.old.best ≡ None }
        ensures kept { OnOk result (AreSameBut self.old self.new) }
        ensures backward { OnOk result (IsNoDearerThanBackward self.old.case.limit self.old.case.book (best_cents self.new.best)) }
    {
        self.take_cheapest(alloc, hint)?;
        let target = greatest_cost(bound, Cents(0));
        if self.is_settled(alloc, target)? {
            return Ok(());
        }
        self.find_cheaper(alloc, EFFORT, target)?;
        Ok(())
    }

    // What a tree without a waiting node comes to.
    fn closed(
        &mut self,
        alloc: Global,
        rule: SplitRule,
        tree: &SearchTree,
    ) -> Result<RunEnd, NoMemory>
        requires tree { IsClosedTree self.old.case (obeys self.old.case rule) (best_cents self.old.best) tree.now }
        requires backward { IsNoDearerThanBackward self.old.case.limit self.old.case.book (best_cents self.old.best) }
        requires reach { IsInReach self.old.case.book }
        requires capacity { tree.now.pool.capacity ≡ self.old.case.budget }
        ensures case { OnOk result (self.new.case ≡ self.old.case) }
        ensures ended { IfOk result (IsRunEnd self.old.case rule (best_cents self.old.best) (best_cents self.new.best)) }
    {
        // The nodes of a pool are one tree, and a book keeps its limits.
        prove!(tree.count() > 0);
        prove!(self.book.line_count() > 0);
        let nodes = tree.nodes(alloc, self.book)?;
        let Some(best) = self.best.take() else {
            return Ok(RunEnd::NoRival(nodes));
        };
        let gap = tree_gap(tree, best.cost);
        Ok(RunEnd::Found(Found {
            plan: best.plan,
            tree: nodes,
            gap,
        }))
    }

    // What a tree shows whose budget is spent, and whose waiting nodes have at least this bound.
    fn shown(
        &self,
        alloc: Global,
        rule: SplitRule,
        tree: &mut SearchTree,
        bound: i128,
    ) -> Result<Shown, NoMemory>
        requires tree { IsFullTree self.now.case (obeys self.now.case rule) (best_cents self.now.best) bound tree.old }
        requires capacity { tree.old.pool.capacity ≡ self.now.case.budget }
        ensures shown { IfOk result (IsSpentRun self.now.case rule (best_cents self.now.best)) }
        ensures capacity { OnOk result (tree.new.pool.capacity ≡ tree.old.pool.capacity) }
    {
        // The nodes of a pool are one tree, before and after, and a book keeps its limits.
        prove!(tree.count() > 0);
        prove!(self.book.line_count() > 0);
        tree.close_waiting();
        prove!(tree.count() > 0);
        let tree = tree.nodes(alloc, self.book)?;
        Ok(Shown {
            tree,
            bound: greatest_cost(bound, Cents(0)),
        })
    }

    // Grows a tree by a rule, whose root alone stands, and says how that ends.
    fn grow_by<W: Watcher>(
        &mut self,
        alloc: Global,
        rule: SplitRule,
        tree: &mut SearchTree,
        watcher: &mut W,
    ) -> Result<RunEnd, NoMemory>
        requires tree { IsBegun self.old.case tree.old }
        requires backward { IsNoDearerThanBackward self.old.case.limit self.old.case.book (best_cents self.old.best) }
        requires reach { IsInReach self.old.case.book }
        ensures case { OnOk result (self.new.case ≡ self.old.case) }
        ensures capacity { OnOk result (tree.new.pool.capacity ≡ self.old.case.budget) }
        ensures ended { IfOk result (IsRunEnd self.old.case rule (best_cents self.old.best) (best_cents self.new.best)) }
    {
        let growth = self.grow(alloc, rule, tree, watcher)?;
        // The nodes of a pool are one tree, and a book keeps its limits.
        prove!(tree.count() > 0);
        prove!(self.book.line_count() > 0);
        match growth {
            Growth::Closed => self.closed(alloc, rule, tree),
            Growth::Spent(bound) => Ok(RunEnd::Spent(self.shown(alloc, rule, tree, bound)?)),
        }
    }

    // Prices the root again, and begins a tree anew from it on. It has the memory of the tree before.
    fn start_again(&mut self, alloc: Global, tree: &mut SearchTree) -> Result<(), NoMemory>
        requires { tree.old.pool.capacity ≡ self.old.case.budget }
        ensures case { OnOk result (self.new.case ≡ self.old.case) }
        ensures best { OnOk result (self.new.best ≡ self.old.best) }
        ensures tree { OnOk result (IsBegun self.old.case tree.new) }
    {
        // A book keeps its limits.
        prove!(self.book.line_count() > 0);
        self.ranges.copy(&self.root);
        self.bases.clear();
        let root = self.price(alloc, None, None)?;
        tree.restart(root);
        Ok(())
    }

    // What two trees come to whose budgets are spent: the greater bound, and the best plan. Where that bound bears the plan out, it is
    // found.
    fn settle(&mut self, first: Shown, second: Shown) -> Result<Found, SearchEnd>
        requires first { IsShown self.old.case first.tree first.bound.0 }
        requires second { IsSpentRun self.old.case SplitRule.Halving (best_cents self.old.best) second }
        requires backward { IsNoDearerThanBackward self.old.case.limit self.old.case.book (best_cents self.old.best) }
        requires reach { IsInReach self.old.case.book }
        ensures outcome { IsOutcome self.old.case result }
        ensures greater { IfErr result (IsNoLessThan first.bound.0 second.bound.0) }
    {
        // A book keeps its limits.
        prove!(self.book.line_count() > 0);
        let Shown { tree, bound } = greater(first, second);
        let Some(best) = self.best.take() else {
            return Err(SearchEnd::BudgetSpent(Spent {
                tree,
                bound,
                best: None,
            }));
        };
        let gap = best.cost.0.saturating_sub(bound.0);
        if gap <= self.allowance.0 {
            return Ok(Found {
                plan: best.plan,
                tree,
                gap,
            });
        }
        Err(SearchEnd::BudgetSpent(Spent {
            tree,
            bound,
            best: Some(best.plan),
        }))
    }

    // Looks for a cheaper plan, by the work of at most so many sweeps; it ends early where a plan costs just a bound.
    #[inline(never)]
    fn find_cheaper(&mut self, alloc: Global, effort: u32, bound: Cents) -> Result<(), NoMemory>
        ensures kept { OnOk result (AreSameBut self.old self.new) }
        ensures no_dearer { OnOk result (IsNoDearer (best_cents self.old.best) (best_cents self.new.best)) }
    {
        if let Some(found) = find(alloc, self.book, &self.limit, effort, bound)? {
            self.offer(Best {
                plan: found.plan,
                cost: found.cost,
            });
        }
        Ok(())
    }

    // Searches once more, by the halving tree with the whole budget, after a tree whose budget is spent, and in its memory.
    fn run_again<W: Watcher>(
        &mut self,
        alloc: Global,
        first: Shown,
        tree: &mut SearchTree,
        watcher: &mut W,
    ) -> Result<Found, SearchEnd>
        requires capacity { tree.old.pool.capacity ≡ self.old.case.budget }
        requires first { IsShown self.old.case first.tree first.bound.0 }
        requires backward { IsNoDearerThanBackward self.old.case.limit self.old.case.book (best_cents self.old.best) }
        requires reach { IsInReach self.old.case.book }
        ensures { IsOutcome self.old.case result }
    {
        let effort = SWEEPS_A_NODE.saturating_mul(self.budget);
        self.find_cheaper(alloc, effort, first.bound)?;
        self.start_again(alloc, tree)?;
        match self.grow_by(alloc, SplitRule::Halving, tree, watcher)? {
            RunEnd::Found(found) => Ok(found),
            RunEnd::NoRival(nodes) => Err(SearchEnd::NoneWithinYield(nodes)),
            RunEnd::Spent(second) => self.settle(first, second),
        }
    }

    // Searches from the ranges of the root, before there is a plan: first by the tree whose splits the relaxation points to.
    fn run<W: Watcher>(
        &mut self,
        alloc: Global,
        hint: &mut Hint,
        watcher: &mut W,
    ) -> Result<Found, SearchEnd>
        requires ranges { self.old.ranges ≡ root_of self.old.case.book }
        requires none { self.old.best ≡ None }
        requires reach { IsInReach self.old.case.book }
        ensures { IsOutcome self.old.case result }
    {
        // A book keeps its limits.
        prove!(self.book.line_count() > 0);
        let root = self.price_root(alloc, hint.take_basis())?;
        self.find_plan(alloc, root.bound, hint)?;
        let mut tree = SearchTree::start(alloc, self.budget, root)?;
        match self.grow_by(alloc, SplitRule::Relaxation, &mut tree, watcher)? {
            RunEnd::Found(found) => Ok(found),
            RunEnd::NoRival(nodes) => Err(SearchEnd::NoneWithinYield(nodes)),
            RunEnd::Spent(first) => self.run_again(alloc, first, &mut tree, watcher),
        }
    }

    // Searches likewise, and makes the hint one of this search. The watcher sees that it has ended.
    fn run_from<W: Watcher>(
        &mut self,
        alloc: Global,
        hint: &mut Hint,
        watcher: &mut W,
    ) -> Result<Found, SearchEnd>
        requires ranges { self.old.ranges ≡ root_of self.old.case.book }
        requires none { self.old.best ≡ None }
        requires reach { IsInReach self.old.case.book }
        ensures { IsOutcome self.old.case result }
    {
        let book = self.book;
        let ended = self.run(alloc, hint, watcher);
        watcher.see(Sight::End);
        let basis = self.take_root_basis();
        hint.keep(alloc, book, best_of(&ended), basis)?;
        ended
    }
}

/// Searches a case for its cheapest portfolio, by branch and bound.
///
/// The limit is from 1 to 3,000,000,000 units of 10^-10, the allowance is at most 10^13 cents, and the budget is from 1 to
/// 10,000 nodes. What is found is accepted by `check`, with the least gap that its tree supports. The search starts with the
/// cheapest of the backward plan, the one that it is trimmed to and one that is looked for, of those within the limit. In a tree the
/// node of the least bound is taken next; it is closed by its leaf, by one that weighs needs alone, or as a point, and else it is
/// split. First a tree grows whose splits the linear relaxation points to, with dives for cheaper plans. Where its budget is spent a
/// cheaper plan is looked for once more, and then the halving tree grows, with the whole budget. A plain case whose issue allows at
/// least its gap is settled at the root. A watcher sees each node that is taken, and that the search has ended; what it comes to is the
/// same whoever watches.
///
/// # Errors
///
/// `Short` exactly where no permitted portfolio meets the needs, with the first day on which all lines at their most are short.
/// `NoneWithinYield` where a tree shows that there is no rival. `BudgetSpent` where the halving tree has more nodes than the
/// budget, with the greater bound that the two trees hold and the best plan. `NoMemory` where memory ran out.
pub fn search<W: Watcher>(
    alloc: Global,
    book: &Book,
    limit: YieldUnits,
    allowance: Cents,
    budget: u32,
    watcher: &mut W,
) -> Result<Found, SearchEnd>
    requires { IsSearchable (searched book.now limit.0 allowance.0 budget) }
    ensures outcome { IsOutcome (searched book.now limit.0 allowance.0 budget) result }
    ensures plain { IsPlainWithin (searched book.now limit.0 allowance.0 budget) → IfErr result (λ ended. ended ≡ SearchEnd.NoMemory) }
{
    search_from(
        alloc,
        book,
        limit,
        allowance,
        budget,
        &mut Hint::none(),
        watcher,
    )
}

/// The same as [`search`], with the hint of a search before: the plan of the hint counts where it is permitted, meets the needs and is
/// within the limit, and the root is priced from its basis too. All that is said of what `search` finds and of how it ends is so
/// whatever the hint. After it the hint is that of this search; where it found no plan, that of the one before stays.
///
/// # Errors
///
/// Those of [`search`].
pub fn search_from<W: Watcher>(
    alloc: Global,
    book: &Book,
    limit: YieldUnits,
    allowance: Cents,
    budget: u32,
    hint: &mut Hint,
    watcher: &mut W,
) -> Result<Found, SearchEnd>
    requires { IsSearchable (searched book.now limit.0 allowance.0 budget) }
    ensures outcome { IsOutcome (searched book.now limit.0 allowance.0 budget) result }
    ensures plain { IsPlainWithin (searched book.now limit.0 allowance.0 budget) → IfErr result (λ ended. ended ≡ SearchEnd.NoMemory) }
{
    // A book keeps its limits.
    prove!(book.line_count() > 0);
    if let Some(day) = day_out_of_reach(book) {
        return Err(SearchEnd::Short(day));
    }
    let mut search = Search::start(alloc, book, limit, allowance, budget)?;
    search.run_from(alloc, hint, watcher)
}
