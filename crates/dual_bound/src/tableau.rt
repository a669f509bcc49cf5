//! The columns of all lines of a book, with their days priced at a leaf.
ghost use Rattle.std.specs.Prelude.{All, ◌≡◌, ◌≢◌, ◌+◌, ◌*◌, ◌^◌, ◌<◌, ◌≤◌, ◌+ℤ◌, ◌-ℤ◌, ℕ, IfOk, None, OnOk, Some, length, map, slice_index_or, slice_set, unsigned_abs};
ghost use Rattle.std.specs.List.{AllZip};
ghost use Rattle.fixed_powers.specs.DiscountPowers.{IsLowTable, PowerTable, one};
ghost use Rattle.offer_book.specs.Book.{IsBook};
ghost use Rattle.offer_book.specs.declared.line.Line.{Line};
ghost use Rattle.escrow_units.specs.Flows.{total};
ghost use Rattle.cash_table.specs.Schedules.{schedules_of};
ghost use Rattle.dual_bound.specs.Changes.{AreChangedDates};
ghost use Rattle.dual_bound.specs.Columns.{AreSums, IsColumn, IsDayTable, IsLightWorth, IsSmallColumn, IsStopWithin, IsTableau, worth_on, worth_together};
ghost use Rattle.dual_bound.specs.declared.column.Column.{Column as ColumnOf};
ghost use Rattle.dual_bound.specs.Loads.{IsLoad, unweighted};
ghost use Rattle.dual_bound.specs.LeafBound.{least_by, priced_cost as priced_cost_of, priced_form, priced_needs as priced_needs_of};
ghost use Rattle.proof_tree.specs.Tree.{IsLeaf, with_price};

use crate::column::Column;
use crate::date_days::{DateDays, days_by_date, price_dates};
use crate::day_table::DayTable;
use crate::form::Form;
use crate::leaf_bound::{cost_worth, credited_cost, priced_needs};
use crate::series::{Run, Series, Stop};
use crate::sums::{mend_at, mend_dates, sum_of, sum_up};
use crate::worth::{PricedDay, Worth, price_day, price_days, price_days_at};
use cash_table::Schedules;
use escrow_desk::NoMemory;
use escrow_units::{AMOUNT_LIMIT, Cents, Flow, YieldUnits};
use fixed_powers::Powers;
use offer_book::Book;
use proof_tree::{Interval, Leaf, PRICE_SCALE, Prices};
use std::alloc::Global;

/// What the days of a tableau are worth at a leaf.
#[derive(Drop)]
pub(crate) struct Priced {
    /// The leaf by which the days are priced.
    pub leaf: Leaf,
    /// What a cent on each day is worth.
    pub worths: Vec<Worth>,
    /// What a cent on each day of a series up to a stop is worth, together.
    pub sums: Vec<Worth>,
    /// What the needs are worth, in cents over `PRICE_SCALE`.
    pub needs: u128,
}

/// The columns of a book's lines, and what their days are worth at a leaf.
#[derive(Drop)]
pub(crate) struct Tableau {
    /// The yield by whose powers the limit discounts.
    pub yield_units: YieldUnits,
    /// The days on which the lines pay.
    pub days: Vec<PricedDay>,
    /// The days that each need date prices.
    pub date_days: Vec<DateDays>,
    /// The columns, in the order of the lines.
    pub columns: Vec<Column>,
    /// The series of the columns.
    pub series: Series,
    /// The leaf by which the days are priced, and what they are worth.
    pub priced: Priced,
}

// The columns of a book's lines, whose days are put into a table.
fn columns_of(
    alloc: Global,
    book: &Book,
    powers: &Powers,
    schedules: &Schedules,
    table: &mut DayTable,
) -> Result<Vec<Column>, NoMemory>
    requires limits { IsBook book.now }
    requires powers { IsLowTable powers.now }
    requires schedules { schedules.now ≡ schedules_of book.now }
    requires empty { length table.old.days.items ≡ 0 }
    requires table { IsDayTable powers.now.yield_units book.now table.old }
    ensures table { OnOk result (IsDayTable powers.now.yield_units book.now table.new) }
    ensures columns { IfOk result (λ columns. AllZip (IsColumn powers.now.yield_units book.now table.new.days.items) book.now.lines columns.items) }
    ensures small { IfOk result (λ columns. All IsSmallColumn columns.items) }
{
    let mut columns = Vec::with_capacity(alloc, book.lines().len())?;
    for line in book.lines() {
        let kept = schedules.line(columns.len());
        columns.push(Column::make(alloc, book, powers, table, line, kept)?)?;
    }
    Ok(columns)
}

// What a cent on each of some days is worth at a leaf.
fn worths_of(alloc: Global, leaf: &Leaf, days: &[PricedDay]) -> Result<Vec<Worth>, NoMemory>
    requires leaf { leaf.now.mu ≤ PRICE_SCALE }
    requires powers { All (λ priced. priced.power ≤ one) days.now }
    ensures { IfOk result (λ worths. worths.items ≡ map (worth_on leaf.now) days.now) }
{
    let mut worths = Vec::with_capacity(alloc, days.len())?;
    for day in days {
        worths.push(price_day(leaf, *day))?;
    }
    Ok(worths)
}

// What a cent on each day of series up to each stop is worth, together.
fn sums_of(alloc: Global, stops: &[Stop], worths: &[Worth]) -> Result<Vec<Worth>, NoMemory>
    requires there { All (IsStopWithin (length worths.now)) stops.now }
    requires light { All IsLightWorth worths.now }
    requires few { length stops.now ≤ 100_000 }
    ensures { IfOk result (λ sums. AreSums worths.now stops.now sums.items) }
{
    let nothing = Worth { above: 0, below: 0 };
    let mut sums = vec![in alloc; nothing; stops.len()]?;
    sum_up(stops, worths, sums.as_mut_slice());
    Ok(sums)
}

// What needs are worth where the price of one of them changes.
fn mended(worth: u128, need: Cents, old: u64, new: u64) -> u128
    requires need { need.0 ≤ AMOUNT_LIMIT }
    requires worth { worth ≤ 2 * 10 ^ 25 }
    requires part { need.0 * old ≤ worth }
    ensures { result + need.0 * old ≡ worth + need.0 * new }
{
    worth - u128::from(need.0) * u128::from(old) + u128::from(need.0) * u128::from(new)
}

// Takes over the prices of another leaf at some need dates, which are all that differ; what the needs are worth then.
fn take_prices(needs: &[Flow], worth: u128, own: &mut Prices, new: &[u64], dates: &[usize]) -> u128
    requires needs { total needs.now ≤ AMOUNT_LIMIT }
    requires long { length needs.now ≡ length own.old }
    requires same { length own.old ≡ length new.now }
    requires own { All (λ price. price ≤ 2 * PRICE_SCALE) own.old }
    requires new { All (λ price. price ≤ 2 * PRICE_SCALE) new.now }
    requires few { length new.now ≤ 65_535 }
    requires dates { AreChangedDates own.old new.now dates.now }
    requires worth { worth ≡ priced_needs_of needs.now own.old }
    ensures worth { result ≡ priced_needs_of needs.now new.now }
    ensures prices { own.new ≡ new.now }
{
    let mut worth = worth;
    for date in dates {
        worth = mended(worth, needs[*date].cents, own.as_slice()[*date], new[*date]);
        own.put(*date as u16, new[*date]);
    }
    worth
}

impl Priced {
    /// The same once more.
    ///
    /// # Errors
    ///
    /// Where memory ran out.
    pub(crate) fn copy(&self, alloc: Global) -> Result<Priced, NoMemory>
        ensures leaf { IfOk result (λ copy. copy.leaf ≡ self.now.leaf) }
        ensures worths { IfOk result (λ copy. copy.worths.items ≡ self.now.worths.items) }
        ensures sums { IfOk result (λ copy. copy.sums.items ≡ self.now.sums.items) }
        ensures needs { IfOk result (λ copy. copy.needs ≡ self.now.needs) }
    {
        Ok(Priced {
            leaf: self.leaf.copy(alloc)?,
            worths: self.worths.to_vec(alloc)?,
            sums: self.sums.to_vec(alloc)?,
            needs: self.needs,
        })
    }
}

impl Tableau {
    /// The tableau of a book, by the powers of a yield and the schedules of its lines, priced at a leaf at which nothing has a weight.
    ///
    /// # Errors
    ///
    /// Where memory ran out.
    pub(crate) fn make(
        alloc: Global,
        book: &Book,
        powers: &Powers,
        schedules: &Schedules,
    ) -> Result<Tableau, NoMemory>
        requires powers { IsLowTable powers.now }
        requires schedules { schedules.now ≡ schedules_of book.now }
        ensures tableau { IfOk result (IsTableau book.now) }
        ensures yield_units { IfOk result (λ tableau. tableau.yield_units.0 ≡ powers.now.yield_units) }
    {
        let leaf = Leaf::of_zeros(alloc, false, book.need_count())?;
        let mut table = DayTable::with_room(alloc, 84 * book.lines().len())?;
        let columns = columns_of(alloc, book, powers, schedules, &mut table)?;
        let date_days = days_by_date(alloc, book.need_count(), table.days.as_slice())?;
        let worths = worths_of(alloc, &leaf, table.days.as_slice())?;
        let series = Series::make(
            alloc,
            book.need_count(),
            table.days.as_slice(),
            columns.as_slice(),
        )?;
        let sums = sums_of(alloc, series.stops.as_slice(), worths.as_slice())?;
        let needs = priced_needs(book.needs(), leaf.prices.as_slice());
        Ok(Tableau {
            yield_units: powers.yield_units(),
            days: table.days,
            date_days,
            columns,
            series,
            priced: Priced {
                leaf,
                worths,
                sums,
                needs,
            },
        })
    }

    /// Prices the days at another leaf.
    pub(crate) fn price_anew(&mut self, book: &Book, leaf: &Leaf)
        requires leaf { IsLeaf (length book.now.needs) leaf.now }
        requires tableau { IsTableau book.now self.old }
        ensures tableau { IsTableau book.now self.new }
        ensures leaf { self.new.priced.leaf ≡ unweighted leaf.now }
        ensures frame { self.new ≡ record self.old { priced = self.new.priced } }
    {
        price_days(
            leaf,
            self.days.as_slice(),
            self.priced.worths.as_mut_slice(),
        );
        sum_up(
            self.series.stops.as_slice(),
            self.priced.worths.as_slice(),
            self.priced.sums.as_mut_slice(),
        );
        self.priced.leaf.rho = leaf.rho;
        self.priced.needs = priced_needs(book.needs(), leaf.prices.as_slice());
        self.priced.leaf.mu = leaf.mu;
        self.priced.leaf.prices.copy(leaf.prices.as_slice());
    }

    // Prices the days of those need dates whose prices change at another leaf, with the multiplier of the limit as it is.
    fn price_changes(&mut self, book: &Book, leaf: &Leaf, dates: &[usize])
        requires leaf { IsLeaf (length book.now.needs) leaf.now }
        requires limit { self.old.priced.leaf.mu ≡ leaf.now.mu }
        requires dates { AreChangedDates self.old.priced.leaf.prices leaf.now.prices dates.now }
        requires tableau { IsTableau book.now self.old }
        ensures tableau { IsTableau book.now self.new }
        ensures leaf { self.new.priced.leaf ≡ unweighted leaf.now }
        ensures frame { self.new ≡ record self.old { priced = self.new.priced } }
    {
        price_dates(
            leaf,
            dates,
            self.date_days.as_slice(),
            self.days.as_slice(),
            self.priced.worths.as_mut_slice(),
        );
        mend_dates(
            self.series.stops.as_slice(),
            self.priced.worths.as_slice(),
            self.priced.sums.as_mut_slice(),
            self.series.date_stops.as_slice(),
            dates,
        );
        self.priced.needs = take_prices(
            book.needs(),
            self.priced.needs,
            &mut self.priced.leaf.prices,
            leaf.prices.as_slice(),
            dates,
        );
        self.priced.leaf.rho = leaf.rho;
    }

    /// Prices the days at a leaf, where only these need dates' prices differ from those of the leaf before: where the multiplier of
    /// the limit is as it was, their days alone.
    pub(crate) fn price(&mut self, book: &Book, leaf: &Leaf, dates: &[usize])
        requires leaf { IsLeaf (length book.now.needs) leaf.now }
        requires dates { AreChangedDates self.old.priced.leaf.prices leaf.now.prices dates.now }
        requires tableau { IsTableau book.now self.old }
        ensures tableau { IsTableau book.now self.new }
        ensures leaf { self.new.priced.leaf ≡ unweighted leaf.now }
        ensures frame { self.new ≡ record self.old { priced = self.new.priced } }
    {
        if self.priced.leaf.mu == leaf.mu {
            self.price_changes(book, leaf, dates);
        } else {
            self.price_anew(book, leaf);
        }
    }

    /// Changes the price of a need date, counted from 0, and prices the days of that date.
    pub(crate) fn price_date(&mut self, book: &Book, place: u16, price: u64)
        requires place { place < length book.now.needs }
        requires leaf { IsLeaf (length book.now.needs) (with_price self.old.priced.leaf place price) }
        requires tableau { IsTableau book.now self.old }
        ensures tableau { IsTableau book.now self.new }
        ensures leaf { self.new.priced.leaf ≡ with_price self.old.priced.leaf place price }
        ensures frame { self.new ≡ record self.old { priced = self.new.priced } }
    {
        self.priced.needs = mended(
            self.needs_worth(book),
            book.needs()[usize::from(place)].cents,
            self.priced.leaf.prices.as_slice()[usize::from(place)],
            price,
        );
        self.priced.leaf.prices.put(place, price);
        price_days_at(
            &self.priced.leaf,
            self.days.as_slice(),
            self.date_days[usize::from(place)].places.as_slice(),
            self.priced.worths.as_mut_slice(),
        );
        mend_at(
            self.series.stops.as_slice(),
            self.priced.worths.as_slice(),
            self.priced.sums.as_mut_slice(),
            self.series.date_stops[usize::from(place)].places.as_slice(),
        );
    }

    /// What the needs are worth at the leaf, in cents over `PRICE_SCALE`.
    pub(crate) fn needs_worth(&self, book: &Book) -> u128
        requires { IsTableau book.now self.now }
        ensures value { result ≡ priced_needs_of book.now.needs self.now.priced.leaf.prices }
        ensures size { result ≤ 2 * 10 ^ 25 }
    {
        self.priced.needs
    }

    // What a cent on each regular day of a line that has a run is worth, together: a difference of two sums.
    #[inline(always)]
    fn run_worth(&self, book: &Book, line: u16, run: Run) -> Worth
        requires tableau { IsTableau book.now self.now }
        requires line { line < length book.now.lines }
        requires run { slice_index_or self.now.series.runs.items line None ≡ Some run }
        ensures value { (d : ColumnOf) → result ≡ worth_together self.now.priced.worths.items (slice_index_or self.now.columns.items line d).places.items }
        ensures light { result.above + result.below ≤ 84 * (2 * PRICE_SCALE) }
    {
        self.priced.sums[run.to].minus(self.priced.sums[run.from])
    }

    // What a cent on each regular day of a line is worth, together: day by day. It isn't inlined, so that lines with runs have the
    // registers.
    #[inline(never)]
    fn days_worth(&self, book: &Book, line: u16) -> Worth
        requires tableau { IsTableau book.now self.now }
        requires line { line < length book.now.lines }
        ensures value { (d : ColumnOf) → result ≡ worth_together self.now.priced.worths.items (slice_index_or self.now.columns.items line d).places.items }
        ensures light { result.above + result.below ≤ 84 * (2 * PRICE_SCALE) }
    {
        let column = &self.columns[usize::from(line)];
        sum_of(self.priced.worths.as_slice(), column.places.as_slice())
    }

    // What a cent on each regular day of a line is worth, together.
    #[inline(always)]
    fn regular_worth(&self, book: &Book, line: u16) -> Worth
        requires tableau { IsTableau book.now self.now }
        requires line { line < length book.now.lines }
        ensures value { (d : ColumnOf) → result ≡ worth_together self.now.priced.worths.items (slice_index_or self.now.columns.items line d).places.items }
        ensures light { result.above + result.below ≤ 84 * (2 * PRICE_SCALE) }
    {
        match self.series.runs[usize::from(line)] {
            Some(run) => self.run_worth(book, line, run),
            None => self.days_worth(book, line),
        }
    }

    /// The form of a line, counted from 0, without sums.
    #[inline(always)]
    pub(crate) fn form(&self, book: &Book, line: u16) -> Form
        requires tableau { IsTableau book.now self.now }
        requires line { line < length book.now.lines }
        ensures { (d : Line) → result ≡ priced_form self.now.yield_units.0 book.now self.now.priced.leaf (slice_index_or book.now.lines line d) }
    {
        let column = &self.columns[usize::from(line)];
        column.form(
            cost_worth(&self.priced.leaf, book.line(line).kind),
            self.regular_worth(book, line),
            self.priced.worths.as_slice(),
        )
    }

    // What units of a line cost less what their payments are worth, scaled: exactly.
    fn priced_cost(&self, book: &Book, line: u16, units: u64) -> i128
        requires tableau { IsTableau book.now self.now }
        requires line { line < length book.now.lines }
        requires units { (d : Line) → units ≤ (slice_index_or book.now.lines line d).most }
        ensures { (d : Line) → result ≡ priced_cost_of self.now.yield_units.0 book.now self.now.priced.leaf (slice_index_or book.now.lines line d) units }
    {
        let column = &self.columns[usize::from(line)];
        let own = book.line(line);
        column.priced_cost(
            own,
            cost_worth(&self.priced.leaf, own.kind),
            self.regular_worth(book, line),
            self.priced.worths.as_slice(),
            units,
        )
    }

    /// The least that a line can add within an interval, where each unit is credited a load: it is that of a coarse line, or 0.
    #[inline(always)]
    pub(crate) fn least(&self, book: &Book, line: u16, unit_load: i128, interval: Interval) -> i128
        requires tableau { IsTableau book.now self.now }
        requires line { line < length book.now.lines }
        requires ordered { interval.low ≤ interval.high }
        requires high { (d : Line) → interval.high ≤ (slice_index_or book.now.lines line d).most }
        requires load { (d : Line) → IsLoad (slice_index_or book.now.lines line d) unit_load }
        ensures value { (d : Line) → result ≡ least_by self.now.yield_units.0 book.now self.now.priced.leaf (slice_index_or book.now.lines line d) unit_load interval }
        ensures size { unsigned_abs result ≤ 71 * 10 ^ 33 }
    {
        if interval.low == interval.high {
            let cost = self.priced_cost(book, line, interval.low);
            return credited_cost(cost, unit_load, interval.low);
        }
        self.form(book, line)
            .credited(unit_load)
            .least_within(book.line(line), interval)
    }
}
