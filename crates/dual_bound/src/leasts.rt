//! What each line of a book adds at least, kept from leaf to leaf.
ghost use Rattle.std.specs.Prelude.{All, ◌≡◌, ◌⊎◌, ◌+◌, ◌*◌, ◌^◌, ◌<◌, ◌≤◌, ℕ, IfOk, length, slice_index, slice_index_or, true, unsigned_abs};
ghost use Rattle.offer_book.specs.Book.{BookContents};
ghost use Rattle.offer_book.specs.declared.line.Line.{Line};
ghost use Rattle.dual_bound.specs.Changes.{AreChangedDates};
ghost use Rattle.dual_bound.specs.Columns.{IsTableau};
ghost use Rattle.dual_bound.specs.LeafBound.{bound_of, least_by};
ghost use Rattle.dual_bound.specs.Leasts.{AgreeInside, AreApart, AreLeasts, IsInside, IsLeast, IsPricedInside, IsRight, IsSpanOf};
ghost use Rattle.dual_bound.specs.Loads.{AreLoads, IsLoad, with_weights};
ghost use Rattle.node_ranges.specs.Ranges.{AreOf};
ghost use Rattle.proof_tree.specs.Tree.{with_price};
ghost use Rattle.dual_bound.specs.declared.column.OtherPayment.{OtherPayment};
ghost use Rattle.dual_bound.specs.declared.leasts.Least.{Least as LeastOf};
ghost use Rattle.dual_bound.specs.declared.leasts.Span.{Span as SpanOf};
ghost use Rattle.proof_tree.specs.declared.tree.Leaf.{Leaf as LeafOf};

use crate::column::Column;
use crate::leaf_bound::needs_and_ends;
use crate::loads::Loads;
use crate::tableau::Tableau;
use crate::worth::PricedDay;
use escrow_desk::NoMemory;
use node_ranges::Ranges;
use offer_book::Book;
use proof_tree::{Interval, Leaf};
use std::alloc::Global;

/// A place behind every need date: they are counted by a `u16`.
pub(crate) const PAST_DATES: usize = 65_536;

/// Need dates from a first to a last, both among them, counted from 0: none where the first is behind the last.
#[derive(Clone, Copy)]
pub(crate) struct Span {
    /// The first need date.
    pub first: usize,
    /// The last need date.
    pub last: usize,
}

impl Span {
    // No need dates.
    fn none() -> Span
        ensures { result ≡ record { first = PAST_DATES; last = 0 } }
    {
        Span {
            first: PAST_DATES,
            last: 0,
        }
    }

    // Every need date.
    fn all() -> Span
        ensures { result ≡ record { first = 0; last = PAST_DATES } }
    {
        Span {
            first: 0,
            last: PAST_DATES,
        }
    }

    // The least span that holds this one and another.
    fn together(self, other: Span) -> Span
        ensures first { (result.first ≤ self.first) × (result.first ≤ other.first) }
        ensures last { (self.last ≤ result.last) × (other.last ≤ result.last) }
    {
        Span {
            first: self.first.min(other.first),
            last: self.last.max(other.last),
        }
    }

    // The least span that holds this one and a date.
    fn with(self, date: usize) -> Span
        ensures first { (result.first ≤ self.first) × (result.first ≤ date) }
        ensures last { (self.last ≤ result.last) × (date ≤ result.last) }
    {
        self.together(Span {
            first: date,
            last: date,
        })
    }

    // Whether a span ends before another, or starts behind it.
    fn is_apart(self, other: Span) -> bool
        ensures { result ≡ true → AreApart self other }
    {
        self.last < other.first || other.last < self.first
    }
}

// The need dates among which all of these lie.
fn span_together(dates: &[usize]) -> Span
    ensures { All (IsInside result) dates.now }
{
    let mut span = Span::none();
    for date in dates {
        span = span.with(*date);
    }
    span
}

// The need dates among which all lie that price a payment otherwise at another leaf, where only these need dates' prices differ.
fn changes(old: &Leaf, new: &Leaf, dates: &[usize]) -> Span
    requires long { length old.now.prices ≡ length new.now.prices }
    requires dates { AreChangedDates old.now.prices new.now.prices dates.now }
    ensures { (span : SpanOf) → span.first ≤ PAST_DATES → AreApart span result → AgreeInside span old.now new.now }
{
    if old.rho != new.rho || old.mu != new.mu {
        return Span::all();
    }
    span_together(dates)
}

// The need dates among which all lie that price a column's regular payments.
fn regular_span(column: &Column, days: &[PricedDay]) -> Span
    requires { All (λ place. place < length days.now) column.now.places.items }
    ensures start { result.first ≤ PAST_DATES }
    ensures dates { All (IsPricedInside days.now result) column.now.places.items }
{
    let mut span = Span::none();
    for place in column.places.as_slice() {
        span = span.with(days[usize::from(*place)].need);
    }
    span
}

// The need dates among which all lie that price a column's payments.
fn span_of(column: &Column, days: &[PricedDay]) -> Span
    requires places { All (λ place. place < length days.now) column.now.places.items }
    requires others { All (λ (other : OtherPayment). other.place < length days.now) column.now.others.items }
    ensures start { result.first ≤ PAST_DATES }
    ensures span { IsSpanOf days.now column.now result }
{
    let mut span = regular_span(column, days);
    for other in column.others.as_slice() {
        span = span.with(days[usize::from(other.place)].need);
    }
    span
}

/// What a line was found to add at least within an interval.
#[derive(Clone, Copy)]
pub(crate) struct Least {
    /// The need dates among which all lie that price the line's payments.
    pub span: Span,
    /// The interval.
    pub interval: Interval,
    /// What each unit was credited by weights of sums, scaled.
    pub unit_load: i128,
    /// What the line adds at least, scaled.
    pub least: i128,
}

impl Least {
    // What a line, counted from 0, adds where none of it is bought.
    fn of_none(book: &Book, tableau: &Tableau, line: u16) -> Least
        requires tableau { IsTableau book.now tableau.now }
        requires line { line < length book.now.lines }
        ensures { (d : Line) (changed : SpanOf) → IsLeast tableau.now.yield_units.0 book.now tableau.now.priced.leaf changed (slice_index_or book.now.lines line d) result }
    {
        let interval = Interval { low: 0, high: 0 };
        let least = tableau.least(book, line, 0, interval);
        let column = &tableau.columns[usize::from(line)];
        Least {
            span: span_of(column, tableau.days.as_slice()),
            interval,
            unit_load: 0,
            least,
        }
    }
}

/// What each line of a book was found to add at least. It stays right for a line while no price of its span changes.
#[derive(Drop)]
pub(crate) struct Leasts {
    /// What each line was found to add, in the order of the lines.
    pub lines: Vec<Least>,
    /// The need dates among which all lie whose prices have changed since.
    pub changed: Span,
}

impl Leasts {
    /// What the lines of a tableau add where nothing is bought.
    ///
    /// # Errors
    ///
    /// Where memory ran out.
    pub(crate) fn make(alloc: Global, book: &Book, tableau: &Tableau) -> Result<Leasts, NoMemory>
        requires tableau { IsTableau book.now tableau.now }
        ensures { IfOk result (AreLeasts tableau.now.yield_units.0 book.now tableau.now.priced.leaf) }
    {
        let mut lines = Vec::with_capacity(alloc, book.lines().len())?;
        for line in 0..book.line_count() {
            lines.push(Least::of_none(book, tableau, line))?;
        }
        Ok(Leasts {
            lines,
            changed: Span::none(),
        })
    }

    /// The same once more.
    ///
    /// # Errors
    ///
    /// Where memory ran out.
    pub(crate) fn copy(&self, alloc: Global) -> Result<Leasts, NoMemory>
        ensures lines { IfOk result (λ copy. copy.lines.items ≡ self.now.lines.items) }
        ensures changed { IfOk result (λ copy. copy.changed ≡ self.now.changed) }
    {
        Ok(Leasts {
            lines: self.lines.to_vec(alloc)?,
            changed: self.changed,
        })
    }

    /// Takes note that every line may be priced otherwise.
    pub(crate) fn price_all(&mut self)
        ensures { (n : ℕ) (book : BookContents) (old new : LeafOf) → length old.prices ≡ length book.needs → length new.prices ≡ length book.needs → AreLeasts n book old self.old → AreLeasts n book new self.new }
    {
        self.changed = Span::all();
    }

    /// Takes note of all that another leaf prices otherwise, where only these need dates' prices differ.
    pub(crate) fn price(&mut self, old: &Leaf, new: &Leaf, dates: &[usize])
        requires long { length old.now.prices ≡ length new.now.prices }
        requires dates { AreChangedDates old.now.prices new.now.prices dates.now }
        ensures { (n : ℕ) (book : BookContents) → length old.now.prices ≡ length book.needs → AreLeasts n book old.now self.old → AreLeasts n book new.now self.new }
    {
        self.changed = self.changed.together(changes(old, new, dates));
    }

    /// Takes note of a need date, counted from 0, whose price changes.
    pub(crate) fn price_date(&mut self, place: u16)
        ensures { (n : ℕ) (book : BookContents) (leaf : LeafOf) (price : ℕ) → length leaf.prices ≡ length book.needs → AreLeasts n book leaf self.old → AreLeasts n book (with_price leaf place price) self.new }
    {
        self.changed = self.changed.with(usize::from(place));
    }

    // The least that a line can add within an interval: as it is known, else reckoned and kept.
    #[inline(always)]
    fn least(
        &mut self,
        book: &Book,
        tableau: &Tableau,
        line: u16,
        unit_load: i128,
        interval: Interval,
    ) -> i128
        requires tableau { IsTableau book.now tableau.now }
        requires leasts { AreLeasts tableau.now.yield_units.0 book.now tableau.now.priced.leaf self.old }
        requires line { line < length book.now.lines }
        requires ordered { interval.low ≤ interval.high }
        requires high { (d : Line) → interval.high ≤ (slice_index_or book.now.lines line d).most }
        requires load { (d : Line) → IsLoad (slice_index_or book.now.lines line d) unit_load }
        ensures value { (d : Line) → result ≡ least_by tableau.now.yield_units.0 book.now tableau.now.priced.leaf (slice_index_or book.now.lines line d) unit_load interval }
        ensures size { unsigned_abs result ≤ 71 * 10 ^ 33 }
        ensures leasts { AreLeasts tableau.now.yield_units.0 book.now tableau.now.priced.leaf self.new }
        ensures right { (d : Line) (e : LeastOf) → IsRight tableau.now.yield_units.0 book.now tableau.now.priced.leaf (slice_index_or book.now.lines line d) (slice_index_or self.new.lines.items line e) }
        ensures others { (k : ℕ) (e : LeastOf) → ¬ (k ≡ line) → slice_index_or self.new.lines.items k e ≡ slice_index_or self.old.lines.items k e }
    {
        let place = usize::from(line);
        let known = self.lines[place];
        if known.span.is_apart(self.changed)
            && known.unit_load == unit_load
            && known.interval == interval
        {
            return known.least;
        }
        let least = tableau.least(book, line, unit_load, interval);
        self.lines[place] = Least {
            span: known.span,
            interval,
            unit_load,
            least,
        };
        least
    }

    /// The lower bound of the leaf by which the days are priced, with the weights of sums of some loads. What a line adds is inlined
    /// into its loop.
    pub(crate) fn bound(
        &mut self,
        book: &Book,
        tableau: &Tableau,
        loads: &Loads,
        ranges: &Ranges,
    ) -> i128
        requires tableau { IsTableau book.now tableau.now }
        requires leasts { AreLeasts tableau.now.yield_units.0 book.now tableau.now.priced.leaf self.old }
        requires loads { AreLoads book.now loads.now }
        requires ranges { AreOf book.now ranges.now }
        ensures value { result ≡ bound_of tableau.now.yield_units.0 book.now ranges.now (with_weights tableau.now.priced.leaf loads.now.weights.items) }
        ensures size { unsigned_abs result < 10 ^ 37 }
        ensures leasts { AreLeasts tableau.now.yield_units.0 book.now tableau.now.priced.leaf self.new }
    {
        let intervals = ranges.intervals();
        let mut bound = needs_and_ends(tableau.needs_worth(book), loads.ends(book, ranges));
        for line in 0..book.line_count() {
            let unit_load = loads.unit(book, line);
            bound += self.least(book, tableau, line, unit_load, intervals[usize::from(line)]);
        }
        self.changed = Span::none();
        bound
    }
}
