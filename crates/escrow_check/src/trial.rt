//! A certificate on trial, line by line.
ghost use Rattle.std.specs.Prelude.{◌≡◌, ◌+◌, ◌<◌, IfErr, IfOk, List, OnOk, false, length, true, ℕ};
ghost use Rattle.case_file.specs.Case.{HasTerms, case_view};
ghost use Rattle.cash_table.specs.First.{first_short_of};
ghost use Rattle.proof_tree.specs.Tree.{IsLeaf};
ghost use Rattle.offer_book.specs.Book.{IsBook};
ghost use Rattle.offer_book.specs.Portfolio.{IsPermitted};
ghost use Rattle.yield_enclosure.specs.YieldAnswers.{is_within as is_within_of};
ghost use Rattle.escrow_check.specs.Acceptance.{is_offered as is_offered_of};
ghost use Rattle.escrow_check.specs.Trial.{AreColumnsOf, Ends, IsNew, IsReady, TakesEnd, TakesSplit, closed_leaf, closed_point, may_go, plan_reason, verdict_on, with_buy, with_gap};
ghost use Rattle.escrow_check.specs.Knows.{Comes, Knows};
ghost use Rattle.escrow_check.specs.Walk.{IsWalk};
ghost use Rattle.bound_certificate.specs.Draft.{with_item};
ghost use Rattle.bound_certificate.specs.Step.{due_after};
ghost use Rattle.bound_certificate.specs.declared.certificate.Certificate.{Certificate as CertificateOf};
ghost use Rattle.bound_certificate.specs.declared.due.Due.{Due as DueOf};
ghost use Rattle.bound_certificate.specs.declared.item.Item.TheVariants as item_of;

use crate::closing::{is_closed_leaf, is_closed_point};
use crate::verdict::{Portfolio, Reason, Verdict};
use crate::walk::Walk;
use bound_certificate::{Buy, Item, MOST_NODES};
use case_file::Case;
use cash_table::{Plan, Standing, cost};
use dual_bound::Columns;
use escrow_desk::NoMemory;
use escrow_units::{Cents, Day, GREATEST_INDEX, YieldUnits};
use fixed_powers::{Powers, Side};
use offer_book::Book;
use proof_tree::{Leaf, Part};
use std::alloc::Global;
use yield_enclosure::YieldAnswer;

/// A certificate on trial: what is known of it, up to a line.
#[derive(Drop)]
pub(crate) struct Trial<'a> {
    /// The discount factors at one unit below the limit.
    pub powers: Powers,
    /// The columns of the book at this yield, priced at the last leaf that was tried.
    pub columns: Columns<'a>,
    /// Room for the portfolio of a point.
    pub point: Plan,
    /// Whether there is a portfolio.
    pub named: bool,
    /// The portfolio so far, while each purchase is offered.
    pub plan: Plan,
    /// The gap, in cents.
    pub gap: u64,
    /// The yield of the portfolio.
    pub answer: YieldAnswer,
    /// What the tree has to show.
    pub claim: Option<i128>,
    /// A reason that comes before those of the nodes that aren't read yet; then nothing but the grammar matters any more.
    pub reason: Option<Reason>,
    /// Where the tree stands.
    pub walk: Walk,
    /// How many nodes came.
    pub nodes: u32,
    /// The first leaf or point that isn't closed.
    pub weak: Option<u32>,
}

// A purchase names a line of the book, and its units are permitted.
fn is_offered(book: &Book, buy: Buy) -> bool
    ensures { result ≡ is_offered_of book.now.lines buy }
{
    buy.line < book.line_count() && book.line(buy.line).permits(buy.units)
}

// Whether a yield is within a limit.
fn is_within(answer: YieldAnswer, limit: YieldUnits) -> bool
    ensures { result ≡ is_within_of limit.0 answer }
{
    match answer {
        YieldAnswer::Empty | YieldAnswer::Negative => true,
        YieldAnswer::Between { hi, .. } => hi.0 <= limit.0,
        YieldAnswer::Above => false,
    }
}

// Why a portfolio isn't accepted, by its first short day and its yield: but for its tree and its gap.
fn portfolio_reason(case: &Case, short: Option<Day>, answer: YieldAnswer) -> Option<Reason>
    ensures { (plan : List ℕ) → short ≡ first_short_of case.now.book plan → result ≡ plan_reason (case_view case.now) plan answer }
{
    if let Some(day) = short {
        return Some(Reason::ShortOn(day));
    }
    if is_within(answer, case.limit) {
        None
    } else {
        Some(Reason::YieldAbove)
    }
}

impl<'a> Trial<'a> {
    /// Nothing is known yet. All memory is taken here but that of `take_gap`, and of rooms for leaves where vectors come.
    pub fn make(alloc: Global, case: &'a Case) -> Result<Trial<'a>, NoMemory>
        requires terms { HasTerms (case_view case.now) }
        requires book { IsBook case.now.book }
        ensures { IfOk result (λ trial. IsNew (case_view case.now) trial) }
    {
        let powers = Powers::make(
            alloc,
            YieldUnits(case.limit.0 - 1),
            Side::Low,
            GREATEST_INDEX,
        )?;
        let columns = Columns::make(alloc, &case.book, &powers)?;
        Ok(Trial {
            powers,
            columns,
            point: Plan::zero(alloc, &case.book)?,
            named: false,
            plan: Plan::zero(alloc, &case.book)?,
            gap: 0,
            answer: YieldAnswer::Empty,
            claim: None,
            reason: None,
            walk: Walk::make(alloc, &case.book)?,
            nodes: 0,
            weak: None,
        })
    }

    /// There is a portfolio.
    pub fn take_portfolio(&mut self)
        ensures { self.new ≡ record self.old { named = true } }
    {
        self.named = true;
    }

    /// A purchase.
    pub fn take_buy(&mut self, case: &Case, buy: Buy)
        requires { length self.old.plan ≡ length case.now.book.lines }
        ensures { self.new ≡ with_buy case.now.book self.old buy }
    {
        if self.reason.is_some() {
            return;
        }
        if is_offered(&case.book, buy) {
            self.plan.put(buy.line, buy.units);
        } else {
            self.reason = Some(Reason::NotPermitted(buy.line));
        }
    }

    /// The gap, behind which the portfolio is known.
    ///
    /// # Errors
    ///
    /// Where memory ran out.
    pub fn take_gap(&mut self, alloc: Global, case: &Case, gap: u64) -> Result<(), NoMemory>
        requires plan { IsPermitted case.now.book self.old.plan }
        requires columns { AreColumnsOf (case_view case.now) self.old.columns }
        ensures { OnOk result (self.new ≡ with_gap (case_view case.now) self.old gap) }
    {
        self.gap = gap;
        if !self.named || self.reason.is_some() {
            return Ok(());
        }
        let Standing { short, answer } = self.columns.standing(alloc, &self.plan)?;
        self.answer = answer;
        self.claim = Some(i128::from(cost(&case.book, &self.plan).0) - i128::from(gap));
        self.reason = portfolio_reason(case, short, answer);
        Ok(())
    }

    // Whether a node still matters.
    fn goes_on(&self) -> bool
        ensures { result ≡ may_go self.now }
    {
        self.reason.is_none() && !self.walk.over
    }

    // A leaf or a point came, whether closed or not.
    fn end_subtree(&mut self, case: &Case, closed: bool)
        requires walk { IsWalk case.now.book self.old.walk }
        requires going { self.old.walk.over ≡ false }
        requires count { self.old.nodes < MOST_NODES }
        ensures { Ends case.now.book closed self.old self.new }
    {
        self.nodes += 1;
        if self.weak.is_none() && !closed {
            self.weak = Some(self.nodes);
        }
        self.walk.close(&case.book);
    }

    /// A split of a line or of a sum.
    pub fn take_split(&mut self, case: &Case, part: Part, at: u64)
        requires { IsReady (case_view case.now) self.old }
        ensures { TakesSplit case.now.book part at self.old self.new }
    {
        if !self.goes_on() {
            return;
        }
        self.nodes += 1;
        if self.walk.ranges.proper(part, at) {
            self.walk.split(&case.book, part, at);
        } else {
            self.reason = Some(Reason::BadSplit(self.nodes));
        }
    }

    /// A point.
    pub fn take_point(&mut self, case: &Case)
        requires { IsReady (case_view case.now) self.old }
        ensures { TakesEnd case.now.book (closed_point (case_view case.now) self.old) self.old self.new }
    {
        if !self.goes_on() {
            return;
        }
        let closed = self.weak.is_some()
            || is_closed_point(
                case,
                &self.powers,
                self.claim,
                &self.walk.ranges,
                &mut self.point,
            );
        self.end_subtree(case, closed);
    }

    /// A leaf, and the vector that it is near to.
    pub fn take_leaf(&mut self, case: &Case, leaf: &Leaf, vector: usize)
        requires ready { IsReady (case_view case.now) self.old }
        requires leaf { IsLeaf (length case.now.book.needs) leaf.now }
        ensures { TakesEnd case.now.book (closed_leaf (case_view case.now) self.old leaf.now) self.old self.new }
    {
        if !self.goes_on() {
            return;
        }
        let closed = self.weak.is_some()
            || is_closed_leaf(
                case,
                &mut self.columns,
                self.claim,
                &self.walk.ranges,
                leaf,
                vector,
            );
        self.end_subtree(case, closed);
    }

    /// What a line says, and the leaf of a leaf's line with the vector that it is near to.
    ///
    /// # Errors
    ///
    /// Where memory ran out that the gap's line takes. Where there is none for rooms it goes on without.
    pub fn take(
        &mut self,
        alloc: Global,
        case: &Case,
        item: Item,
        leaf: &Leaf,
        vector: usize,
    ) -> Result<(), NoMemory>
        requires comes { (cert : CertificateOf) × (d : DueOf) × Comes (case_view case.now) cert d item leaf.now self.old }
        requires book { IsBook case.now.book }
        ensures err { IfErr result (λ _. (cents : ℕ) × (item ≡ item_of.Gap cents)) }
        ensures knows { OnOk result ((cert : CertificateOf) (d : DueOf) → Comes (case_view case.now) cert d item leaf.now self.old
            → Knows (case_view case.now) (with_item cert item leaf.now) (due_after d item) self.new) }
    {
        match item {
            Item::Portfolio(Some(_)) => self.take_portfolio(),
            Item::Buy(buy) => self.take_buy(case, buy),
            Item::Gap(cents) => self.take_gap(alloc, case, cents)?,
            Item::Split { part, at } => self.take_split(case, part, at),
            Item::Point => self.take_point(case),
            Item::Leaf => self.take_leaf(case, leaf, vector),
            Item::Vectors(count) => self.columns.add_rooms(alloc, count),
            Item::Nothing
            | Item::Header
            | Item::Portfolio(None)
            | Item::Vector
            | Item::Nodes(_)
            | Item::End => {}
        }
        Ok(())
    }

    /// The verdict, where the certificate is whole. It takes no memory.
    pub fn verdict(self, case: &Case) -> Verdict
        requires { IsPermitted case.now.book self.plan }
        ensures { result ≡ verdict_on (case_view case.now) self.entry }
    {
        let Trial {
            named,
            plan,
            gap,
            answer,
            reason,
            weak,
            ..
        } = self;
        if let Some(reason) = reason {
            return Verdict::No(reason);
        }
        if let Some(node) = weak {
            return Verdict::No(Reason::WeakLeaf(node));
        }
        if !named {
            return Verdict::YesNone;
        }
        if gap > case.allowance.0 {
            return Verdict::No(Reason::GapAbove);
        }
        let cost = cost(&case.book, &plan);
        Verdict::Yes(Portfolio {
            plan,
            cost,
            answer,
            gap: Cents(gap),
        })
    }
}
