//! The linear program of a book, by its columns.
ghost use Rattle.std.specs.Prelude.{◌≡◌, ◌*◌, ◌^◌, ◌<◌, ◌≤◌, ◌+ℤ◌, ◌-ℤ◌, ℕ, IfOk, length, slice_index_or, unsigned_abs};
ghost use Rattle.fixed_powers.specs.DiscountPowers.{IsLowTable, PowerTable};
ghost use Rattle.offer_book.specs.Portfolio.{IsPermitted};
ghost use Rattle.offer_book.specs.declared.line.Line.{Line};
ghost use Rattle.cash_table.specs.First.{first_short_of};
ghost use Rattle.cash_table.specs.Points.{plan_yield as plan_yield_of};
ghost use Rattle.dual_bound.specs.LeafBound.{bound_of, form_of, least_within};
ghost use Rattle.node_ranges.specs.Ranges.{AreOf, with_interval};
ghost use Rattle.proof_tree.specs.declared.tree.Part.TheVariants as part;
ghost use Rattle.proof_tree.specs.Tree.{IsLeaf, with_price};

use crate::changes::ChangedDates;
use crate::form::Form;
use crate::leasts::Leasts;
use crate::loads::Loads;
use crate::rooms::Rooms;
use crate::tableau::Tableau;
use cash_table::{Plan, Schedules, Standing, plan_standing};
use escrow_desk::NoMemory;
use fixed_powers::Powers;
use node_ranges::Ranges;
use offer_book::Book;
use proof_tree::{Interval, Leaf};
use std::alloc::Global;
use std::marker::Model;

// A sum, where one of its parts is exchanged for another.
fn exchanged(sum: i128, old: i128, new: i128) -> i128
    requires sum { unsigned_abs sum < 10 ^ 37 }
    requires old { unsigned_abs old ≤ 71 * 10 ^ 33 }
    requires new { unsigned_abs new ≤ 71 * 10 ^ 33 }
    ensures { result ≡ (sum -ℤ old) +ℤ new }
{
    sum - old + new
}

/// The columns of the lines of a book, made once for it and the powers of a yield, and priced at a leaf. A column is what a
/// line is in the linear program: what a unit costs, and what it pays on which days.
///
/// Nothing after [`make`](Columns::make) reads a calendar or discounts a payment, and [`add_rooms`](Columns::add_rooms) alone
/// takes memory. Contracts see the book, the yield, and the leaf at which the columns are priced.
#[derive(Drop)]
pub struct Columns<'a> {
    book: &'a Book,
    schedules: Schedules,
    tableau: Tableau,
    loads: Loads,
    leasts: Leasts,
    rooms: Rooms,
    changed: ChangedDates,
}

impl<'a> Model for Columns<'a> {
    ghost use Rattle.std.specs.Prelude.{◌≡◌};
    ghost use Rattle.cash_table.specs.Schedules.{schedules_of};
    ghost use Rattle.dual_bound.specs.Columns.{ColumnsContents};
    ghost use Rattle.dual_bound.specs.Loads.{AreLoads, with_weights};
    ghost use Rattle.dual_bound.specs.Rooms.{AreColumns};

    ghost Value = { ColumnsContents };

    ghost view = { λ c. record { book = c.book.now; yield_units = c.tableau.yield_units.0; leaf = with_weights c.tableau.priced.leaf c.loads.weights.items } };

    ghost invariant = { λ c. AreColumns c.book.now c.tableau c.leasts c.rooms c.changed × AreLoads c.book.now c.loads × (c.schedules ≡ schedules_of c.book.now) };
}

impl<'a> Columns<'a> {
    /// The columns of a book, by powers of the low side, of 0 to 14,400 index days. They are priced at a leaf at which nothing
    /// has a weight.
    ///
    /// # Errors
    ///
    /// Where memory ran out.
    pub fn make(alloc: Global, book: &'a Book, powers: &Powers) -> Result<Columns<'a>, NoMemory>
        requires powers { IsLowTable powers.now }
        ensures book { IfOk result (λ columns. columns.book ≡ book.now) }
        ensures yield_units { IfOk result (λ columns. columns.yield_units ≡ powers.now.yield_units) }
    {
        let schedules = Schedules::make(alloc, book)?;
        let tableau = Tableau::make(alloc, book, powers, &schedules)?;
        let leasts = Leasts::make(alloc, book, &tableau)?;
        Ok(Columns {
            book,
            schedules,
            tableau,
            loads: Loads::make(alloc, book)?,
            leasts,
            rooms: Rooms::none(alloc),
            changed: ChangedDates::make(alloc, book.need_count())?,
        })
    }

    /// How a permitted portfolio of the book stands: its payments come from the schedules of which the columns were made.
    ///
    /// # Errors
    ///
    /// Where memory ran out.
    pub fn standing(&self, alloc: Global, plan: &Plan) -> Result<Standing, NoMemory>
        requires { IsPermitted self.now.book plan.now }
        ensures short { IfOk result (λ standing. standing.short ≡ first_short_of self.now.book plan.now) }
        ensures answer { IfOk result (λ standing. standing.answer ≡ plan_yield_of self.now.book plan.now) }
    {
        plan_standing(alloc, self.book, &self.schedules, plan)
    }

    /// Prices the columns at a leaf that keeps its limits, with one price for each need date: each payment day once. Where the
    /// multiplier of the limit is that of the leaf before, and few prices differ, only the days of those dates are priced anew.
    pub fn price(&mut self, leaf: &Leaf)
        requires { IsLeaf (length self.old.book.needs) leaf.now }
        ensures { self.new ≡ record { book = self.old.book; yield_units = self.old.yield_units; leaf = leaf.now } }
    {
        self.loads.take(self.book, leaf.weights.as_slice());
        let few = self.changed.take(
            self.tableau.priced.leaf.prices.as_slice(),
            leaf.prices.as_slice(),
        );
        if few {
            let dates = self.changed.dates.as_slice();
            self.leasts.price(&self.tableau.priced.leaf, leaf, dates);
            self.tableau.price(self.book, leaf, dates);
        } else {
            self.leasts.price_all();
            self.tableau.price_anew(self.book, leaf);
        }
    }

    /// Changes one price of the leaf at which the columns are priced, of a need date counted from 0, so that the leaf keeps its
    /// limits. Only those payment days are priced whose first need date it is.
    pub fn price_date(&mut self, place: u16, price: u64)
        requires place { place < length self.old.book.needs }
        requires leaf { IsLeaf (length self.old.book.needs) (with_price self.old.leaf place price) }
        ensures { self.new ≡ record { book = self.old.book; yield_units = self.old.yield_units; leaf = with_price self.old.leaf place price } }
    {
        self.leasts.price_date(place);
        self.tableau.price_date(self.book, place, price);
    }

    /// The form of a line, counted from 0, at the leaf that was priced: its slope and slack. What units of the line add by the
    /// slope is at most 7 * 10^34, and the slack at most 10^23.
    pub fn form(&self, line: u16) -> Form
        requires { line < length self.now.book.lines }
        ensures value { (d : Line) → result ≡ form_of self.now.yield_units self.now.book self.now.leaf (slice_index_or self.now.book.lines line d) }
        ensures slope { (d : Line) (units : ℕ) → units ≤ (slice_index_or self.now.book.lines line d).most → unsigned_abs result.slope * units ≤ 7 * 10 ^ 34 }
        ensures slack { result.slack ≤ 10 ^ 23 }
    {
        self.tableau
            .form(self.book, line)
            .credited(self.loads.unit(self.book, line))
    }

    /// The form of a line, counted from 0, at the prices of a leaf that keeps its limits, with one price for each need date.
    pub fn priced(&mut self, line: u16, leaf: &Leaf) -> Form
        requires line { line < length self.old.book.lines }
        requires leaf { IsLeaf (length self.old.book.needs) leaf.now }
        ensures columns { self.new ≡ record { book = self.old.book; yield_units = self.old.yield_units; leaf = leaf.now } }
        ensures form { (d : Line) → result ≡ form_of self.old.yield_units self.old.book leaf.now (slice_index_or self.old.book.lines line d) }
    {
        self.price(leaf);
        self.form(line)
    }

    /// The least that a line, counted from 0, can add within an interval, whose high end is at most its most, at the leaf that
    /// was priced: exactly where the interval has one number, else by the line's form.
    pub fn least(&self, line: u16, interval: Interval) -> i128
        requires line { line < length self.now.book.lines }
        requires ordered { interval.low ≤ interval.high }
        requires high { (d : Line) → interval.high ≤ (slice_index_or self.now.book.lines line d).most }
        ensures value { (d : Line) → result ≡ least_within self.now.yield_units self.now.book self.now.leaf (slice_index_or self.now.book.lines line d) interval }
        ensures size { unsigned_abs result ≤ 71 * 10 ^ 33 }
    {
        let unit_load = self.loads.unit(self.book, line);
        self.tableau.least(self.book, line, unit_load, interval)
    }

    /// The lower bound of a leaf over ranges, scaled, as [`bound`](crate::bound) gives it by the powers of the same yield: the
    /// leaf keeps its limits, with one price for each need date, and the ranges have an interval for each line of the book,
    /// whose high end is at most the line's most. It lies between -10^37 and 10^37.
    pub fn bound(&mut self, ranges: &Ranges, leaf: &Leaf) -> i128
        requires leaf { IsLeaf (length self.old.book.needs) leaf.now }
        requires ranges { AreOf self.old.book ranges.now }
        ensures columns { self.new ≡ record { book = self.old.book; yield_units = self.old.yield_units; leaf = leaf.now } }
        ensures value { result ≡ bound_of self.old.yield_units self.old.book ranges.now leaf.now }
        ensures size { unsigned_abs result < 10 ^ 37 }
    {
        self.price(leaf);
        self.leasts
            .bound(self.book, &self.tableau, &self.loads, ranges)
    }

    /// Takes rooms for so many leaves besides, as far as there is memory and they take no more than 10 MB. Each keeps what is known
    /// at a leaf, so that [`bound_near`](Columns::bound_near) is fast at another one that differs from it in few prices.
    pub fn add_rooms(&mut self, alloc: Global, count: u32)
        ensures { self.new ≡ self.old }
    {
        self.rooms.grow(alloc, &self.tableau, &self.leasts, count);
    }

    /// The lower bound of a leaf over ranges, as [`bound`](Columns::bound) gives it, by what is known in a room, counted from 0:
    /// of leaves that are bound in the same room only what differs is reckoned anew. Where there is no such room the leaf before
    /// takes its place.
    pub fn bound_near(&mut self, room: usize, ranges: &Ranges, leaf: &Leaf) -> i128
        requires leaf { IsLeaf (length self.old.book.needs) leaf.now }
        requires ranges { AreOf self.old.book ranges.now }
        ensures columns { self.new ≡ record { book = self.old.book; yield_units = self.old.yield_units; leaf = leaf.now } }
        ensures value { result ≡ bound_of self.old.yield_units self.old.book ranges.now leaf.now }
        ensures size { unsigned_abs result < 10 ^ 37 }
    {
        self.rooms.enter(room, &mut self.tableau, &mut self.leasts);
        self.bound(ranges, leaf)
    }

    /// The lower bound of the leaf that was priced, where one line's interval changes: from the bound over the ranges as they
    /// are, it changes by what that line adds alone. The line is counted from 0, and the interval's high end is at most its
    /// most.
    pub fn bound_with(&self, bound: i128, ranges: &Ranges, line: u16, interval: Interval) -> i128
        requires ranges { AreOf self.now.book ranges.now }
        requires bound { bound ≡ bound_of self.now.yield_units self.now.book ranges.now self.now.leaf }
        requires line { line < length self.now.book.lines }
        requires ordered { interval.low ≤ interval.high }
        requires high { (d : Line) → interval.high ≤ (slice_index_or self.now.book.lines line d).most }
        ensures value { result ≡ bound_of self.now.yield_units self.now.book (with_interval ranges.now (part.Line line) interval) self.now.leaf }
    {
        let unit_load = self.loads.unit(self.book, line);
        let known = ranges.intervals()[usize::from(line)];
        let old = self.tableau.least(self.book, line, unit_load, known);
        let new = self.tableau.least(self.book, line, unit_load, interval);
        exchanged(bound, old, new)
    }
}
