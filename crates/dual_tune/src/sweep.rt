//! The steps of a leaf, priced one by one.
ghost use Rattle.std.specs.Prelude.{All, [], ◌≡◌, ◌<◌, ◌≤◌, ◌*◌, ◌^◌, ◌+ℤ◌, ◌-ℤ◌, ◌≤ℤ◌, ◌⊎◌, ℕ, false, true, length, pos, slice_index_or, unsigned_abs, IfOk};
ghost use Rattle.fixed_powers.specs.DiscountPowers.{IsLowTable};
ghost use Rattle.offer_book.specs.Book.{IsBook};
ghost use Rattle.offer_book.specs.declared.line.Line.{Line};
ghost use Rattle.dual_bound.specs.LeafBound.{least_within, priced_needs};
ghost use Rattle.proof_tree.specs.Tree.{IsLeaf, with_price};
ghost use Rattle.proof_tree.specs.declared.interval.Interval.{Interval as IntervalOf};
ghost use Rattle.proof_tree.specs.declared.tree.Leaf.{Leaf as LeafOf};
ghost use Rattle.dual_tune.specs.Steps.{IsStep, IsTriedMultiplier, mu_of_multiplier, price_beside as price_beside_of, with_multiplier};
ghost use Rattle.dual_tune.specs.Sweep.{AreColumnsOf, AreLeasts, AreReached, IsBest, IsFormAt, IsPoint, IsPricedFor, IsReached, IsReadyFor, IsStepOf, IsSweep, IsSweepOf, bound_at, lines_worth};
ghost use Rattle.dual_tune.specs.Table.{AreLineForms};

use crate::given::Given;
use crate::steps::{Multiplier, Side, mu_of, price_beside};
use crate::table::Table;
use dual_bound::{Columns, Form};
use escrow_desk::NoMemory;
use escrow_units::Cents;
use fixed_powers::Powers;
use node_ranges::Ranges;
use offer_book::{Book, COEFFICIENT_SCALE};
use proof_tree::{Leaf, PRICE_SCALE};
use std::alloc::Global;

/// The least that a line adds at the given leaf, scaled.
#[derive(Clone, Copy)]
pub(crate) struct LineLeast {
    /// The least.
    pub least: i128,
}

/// What is changed of a leaf.
#[derive(Clone, Copy)]
pub(crate) enum Step {
    /// Nothing.
    Nothing,
    /// The price at a place.
    Price {
        /// The place of the need date, counted from 0.
        place: u16,
        /// Its price.
        price: u64,
    },
    /// The multiplier of the yield limit.
    Multiplier(u64),
}

/// A step, and the bound of the leaf after it.
#[derive(Clone, Copy)]
pub(crate) struct Best {
    /// The step.
    pub step: Step,
    /// The bound, scaled.
    pub bound: i128,
}

/// The price of a need date becomes another one.
#[derive(Drop)]
pub(crate) struct PriceStep<'t> {
    /// The place of the need date, counted from 0.
    pub place: u16,
    /// Its new price.
    pub price: u64,
    /// The lines that pay for it, counted from 0.
    pub lines: &'t [u16],
    /// Their forms at the leaf after the step, in the same order.
    pub forms: &'t [Form],
}

/// What is kept to price the steps of leaves: the columns, the table of the leaf whose steps were priced last, and what its lines add.
#[derive(Drop)]
pub(crate) struct Sweep<'a> {
    /// The columns of the book.
    pub columns: Columns<'a>,
    /// The forms of lines at the given leaf and its steps.
    pub table: Table<'a>,
    /// Whether an interval is a point. Then the columns are priced at each leaf that counts, since at a point no form is exact.
    pub points: bool,
    /// What each line adds at least at the given leaf.
    pub leasts: Vec<LineLeast>,
    /// The bound of the given leaf, scaled.
    pub bound: i128,
    /// The given leaf, to be given another multiplier of the limit.
    pub trial: Leaf,
}

// What the needs of a date are worth more at a new price, scaled.
fn needs_change(cents: Cents, old: u64, new: u64) -> i128
    requires cents { cents.0 ≤ 10 ^ 13 }
    requires old { old ≤ 2 * PRICE_SCALE }
    requires new { new ≤ 2 * PRICE_SCALE }
    ensures value { result ≡ pos (COEFFICIENT_SCALE * (cents.0 * new)) -ℤ pos (COEFFICIENT_SCALE * (cents.0 * old)) }
    ensures size { unsigned_abs result ≤ 2 * 10 ^ 34 }
{
    let scaled = i128::from(COEFFICIENT_SCALE) * i128::from(cents.0);
    scaled * i128::from(new) - scaled * i128::from(old)
}

// The least that a line adds at a leaf within its interval, from its form there; at a point by the columns, which are priced at that
// leaf.
fn line_least(columns: &Columns, given: &Given, line: u16, form: Form) -> i128
    requires own { AreColumnsOf given.now columns.now }
    requires line { line < length given.now.book.now.lines }
    requires form { (leaf : LeafOf) × IsFormAt given.now columns.now.leaf line leaf form }
    ensures value { (d : Line) (e : IntervalOf) (leaf : LeafOf) → IsFormAt given.now columns.now.leaf line leaf form
        → result ≡ least_within given.now.yield_units.0 given.now.book.now leaf (slice_index_or given.now.book.now.lines line d) (slice_index_or given.now.ranges.now.lines line e) }
    ensures size { unsigned_abs result ≤ 71 * 10 ^ 33 }
{
    let at = usize::from(line);
    let interval = given.ranges.intervals()[at];
    if interval.high == 0 {
        return 0;
    }
    if interval.low == interval.high {
        return columns.least(line, interval);
    }
    let lines = given.book.lines();
    form.least_within(&lines[at], interval)
}

// What a line adds more than before.
fn change(least: i128, before: LineLeast) -> i128
    requires least { unsigned_abs least ≤ 71 * 10 ^ 33 }
    requires before { unsigned_abs before.least ≤ 71 * 10 ^ 33 }
    ensures value { result ≡ least -ℤ before.least }
    ensures size { unsigned_abs result ≤ 142 * 10 ^ 33 }
{
    least - before.least
}

// A bound, with what the needs and the lines add more.
fn changed(bound: i128, needs: i128, lines: i128) -> i128
    requires bound { unsigned_abs bound < 10 ^ 37 }
    requires needs { unsigned_abs needs ≤ 2 * 10 ^ 34 }
    requires lines { unsigned_abs lines ≤ 513 * (142 * 10 ^ 33) }
    ensures { result ≡ (bound +ℤ needs) +ℤ lines }
{
    bound + needs + lines
}

// Whether ranges hold a point.
fn hold_point(ranges: &Ranges) -> bool
    ensures { result ≡ false → All (λ interval. ¬ IsPoint interval) ranges.now.lines }
{
    for interval in ranges.intervals() {
        if 0 < interval.low && interval.low == interval.high {
            return true;
        }
    }
    false
}

// Prices a leaf, where the given ranges hold a point.
fn price_for(columns: &mut Columns, points: bool, given: &Given, leaf: &Leaf)
    requires own { AreColumnsOf given.now columns.old }
    requires points { points ≡ false → All (λ interval. ¬ IsPoint interval) given.now.ranges.now.lines }
    requires leaf { IsLeaf (length given.now.book.now.needs) leaf.now }
    ensures own { AreColumnsOf given.now columns.new }
    ensures priced { points ≡ true → columns.new.leaf ≡ leaf.now }
    ensures there { IsPricedFor given.now.ranges.now.lines columns.new.leaf leaf.now }
{
    if !points {
        return;
    }
    columns.price(leaf);
}

// Changes a price of the leaf that is priced, where ranges hold a point.
fn price_step_for(columns: &mut Columns, points: bool, place: u16, price: u64)
    requires place { place < length columns.old.book.needs }
    requires leaf { points ≡ true → IsLeaf (length columns.old.book.needs) (with_price columns.old.leaf place price) }
    ensures own { columns.new.book ≡ columns.old.book }
    ensures yield_units { columns.new.yield_units ≡ columns.old.yield_units }
    ensures priced { points ≡ true → columns.new.leaf ≡ with_price columns.old.leaf place price }
{
    if !points {
        return;
    }
    columns.price_date(place, price);
}

// The bound of a leaf over the given ranges, from what the needs are worth, and each line's form.
fn bound_by(columns: &Columns, given: &Given, leaf: &Leaf, needs: i128, forms: &[Form]) -> i128
    requires own { AreColumnsOf given.now columns.now }
    requires leaf { IsLeaf (length given.now.book.now.needs) leaf.now }
    requires unweighted { leaf.now.weights ≡ [] }
    requires priced { IsPricedFor given.now.ranges.now.lines columns.now.leaf leaf.now }
    requires needs { needs ≡ pos (COEFFICIENT_SCALE * priced_needs given.now.book.now.needs leaf.now.prices) }
    requires room { length forms.now ≡ length given.now.book.now.lines }
    requires forms { AreLineForms given.now.yield_units.0 given.now.book.now leaf.now forms.now }
    ensures value { result ≡ bound_at given.now leaf.now }
    ensures size { unsigned_abs result < 10 ^ 37 }
{
    let mut bound = needs;
    for line in 0..given.book.line_count() {
        bound += line_least(columns, given, line, forms[usize::from(line)]);
    }
    bound
}

// What the lines add more after a price step, from the forms there of those that pay for the need.
fn lines_change(columns: &Columns, given: &Given, leasts: &[LineLeast], step: &PriceStep) -> i128
    requires limits { IsBook given.now.book.now }
    requires own { AreColumnsOf given.now columns.now }
    requires priced { IsPricedFor given.now.ranges.now.lines columns.now.leaf (with_price given.now.leaf.now step.now.place step.now.price) }
    requires leasts { AreLeasts given.now leasts.now }
    requires step { IsStepOf given.now step.now }
    ensures value { result ≡ lines_worth given.now (with_price given.now.leaf.now step.now.place step.now.price) -ℤ lines_worth given.now given.now.leaf.now }
    ensures size { unsigned_abs result ≤ 513 * (142 * 10 ^ 33) }
{
    let mut more = 0i128;
    for payer in 0..step.lines.len() {
        let line = step.lines[payer];
        let least = line_least(columns, given, line, step.forms[payer]);
        more += change(least, leasts[usize::from(line)]);
    }
    more
}

// A place for what each line adds.
fn no_leasts(alloc: Global, count: u16) -> Result<Vec<LineLeast>, NoMemory>
    ensures count { IfOk result (λ leasts. length leasts.items ≡ count) }
    ensures none { IfOk result (λ leasts. All (λ least. unsigned_abs least.least ≤ 71 * 10 ^ 33) leasts.items) }
{
    let mut leasts = Vec::new(alloc);
    for _ in 0..count {
        leasts.push(LineLeast { least: 0 })?;
    }
    Ok(leasts)
}

// The better of a step and another.
fn better(best: Best, step: Step, bound: i128) -> Best
    ensures first { best.bound ≤ℤ result.bound }
    ensures second { bound ≤ℤ result.bound }
    ensures one { (result ≡ best) ⊎ (result ≡ record { step = step; bound = bound }) }
{
    if bound <= best.bound {
        best
    } else {
        Best { step, bound }
    }
}

/// Takes over another leaf, with as many prices and no weights of sums. It takes no memory.
pub(crate) fn copy_leaf(dates: u16, from: &Leaf, into: &mut Leaf)
    requires from { length from.now.prices ≡ dates }
    requires unweighted { from.now.weights ≡ [] }
    requires into { length into.old.prices ≡ dates }
    ensures { into.new ≡ from.now }
{
    let prices = from.prices.as_slice();
    into.rho = from.rho;
    into.mu = from.mu;
    into.weights.clear();
    for place in 0..dates {
        into.prices.put(place, prices[usize::from(place)]);
    }
}

impl<'a> Sweep<'a> {
    /// What is kept to price the steps of leaves of a book, by powers of the low side. It isn't inlined: its locals would stand on the
    /// stack while the linear program is made.
    ///
    /// # Errors
    ///
    /// Where memory ran out.
    #[inline(never)]
    pub(crate) fn make(
        alloc: Global,
        book: &'a Book,
        powers: &Powers,
    ) -> Result<Sweep<'a>, NoMemory>
        requires { IsLowTable powers.now }
        ensures { IfOk result (IsSweep powers.now.yield_units book.now) }
    {
        let mut columns = Columns::make(alloc, book, powers)?;
        let mut table = Table::make(alloc, book)?;
        let leasts = no_leasts(alloc, book.line_count())?;
        let trial = Leaf::of_zeros(alloc, true, book.need_count())?;
        table.fill(&mut columns, &trial);
        Ok(Sweep {
            columns,
            table,
            points: true,
            leasts,
            bound: 0,
            trial,
        })
    }

    // The bound of the given leaf after a price step, from its own.
    fn bound_of_price_step(&mut self, given: &Given, place: u16, side: Side) -> i128
        requires place { place < length given.now.book.now.needs }
        requires kept { IsSweepOf given.now self.old }
        ensures kept { IsSweepOf given.now self.new }
        ensures value { result ≡ bound_at given.now (with_price given.now.leaf.now place (price_beside_of given.now.leaf.now.prices place side)) }
    {
        let at = usize::from(place);
        let cents = given.book.needs()[at].cents;
        let prices = given.leaf.prices.as_slice();
        let old = prices[at];
        let price = price_beside(prices, place, side);
        price_step_for(&mut self.columns, self.points, place, price);
        let step = PriceStep {
            place,
            price,
            lines: self.table.payers_of(place),
            forms: self.table.step_forms(place, side),
        };
        let lines = lines_change(&self.columns, given, self.leasts.as_slice(), &step);
        price_step_for(&mut self.columns, self.points, place, old);
        changed(self.bound, needs_change(cents, old, price), lines)
    }

    // The better of a step and a price step at a place.
    fn try_price(&mut self, given: &Given, best: Best, place: u16, side: Side) -> Best
        requires place { place < length given.now.book.now.needs }
        requires kept { IsSweepOf given.now self.old }
        requires best { IsBest given.now best }
        ensures kept { IsSweepOf given.now self.new }
        ensures best { IsBest given.now result }
        ensures better { best.bound ≤ℤ result.bound }
        ensures tried { IsReached given.now result.bound (with_price given.now.leaf.now place (price_beside_of given.now.leaf.now.prices place side)) }
    {
        let prices = given.leaf.prices.as_slice();
        let price = price_beside(prices, place, side);
        if prices[usize::from(place)] == price {
            return best;
        }
        let reached = self.bound_of_price_step(given, place, side);
        better(best, Step::Price { place, price }, reached)
    }

    // The better of a step and both price steps at a place.
    fn try_place(&mut self, given: &Given, best: Best, place: u16) -> Best
        requires place { place < length given.now.book.now.needs }
        requires kept { IsSweepOf given.now self.old }
        requires best { IsBest given.now best }
        ensures kept { IsSweepOf given.now self.new }
        ensures best { IsBest given.now result }
        ensures better { best.bound ≤ℤ result.bound }
        ensures tried { AreReached given.now result.bound place }
    {
        let best = self.try_price(given, best, place, Side::Before);
        self.try_price(given, best, place, Side::After)
    }

    // The best of a step and all price steps.
    fn try_places(&mut self, given: &Given, first: Best) -> Best
        requires kept { IsSweepOf given.now self.old }
        requires best { IsBest given.now first }
        ensures kept { IsSweepOf given.now self.new }
        ensures best { IsBest given.now result }
        ensures better { first.bound ≤ℤ result.bound }
        ensures tried { (place : ℕ) → place < length given.now.book.now.needs → AreReached given.now result.bound place }
    {
        let mut best = first;
        for place in 0..given.book.need_count() {
            best = self.try_place(given, best, place);
        }
        best
    }

    // The bound of the given leaf with another multiplier of the limit.
    fn bound_of_multiplier(&mut self, given: &Given, multiplier: Multiplier) -> i128
        requires { IsReadyFor given.now self.old }
        ensures ready { IsReadyFor given.now self.new }
        ensures value { result ≡ bound_at given.now (with_multiplier given.now.leaf.now (mu_of_multiplier multiplier)) }
    {
        let own = self.trial.mu;
        self.trial.mu = mu_of(multiplier);
        price_for(&mut self.columns, self.points, given, &self.trial);
        let bound = bound_by(
            &self.columns,
            given,
            &self.trial,
            self.table.needs,
            self.table.lines.multiplier_forms(multiplier),
        );
        self.trial.mu = own;
        bound
    }

    // The better of a step and what comes of another multiplier of the limit.
    fn try_multiplier(&mut self, given: &Given, best: Best, multiplier: Multiplier) -> Best
        requires ready { IsReadyFor given.now self.old }
        requires best { IsBest given.now best }
        ensures ready { IsReadyFor given.now self.new }
        ensures best { IsBest given.now result }
        ensures better { best.bound ≤ℤ result.bound }
        ensures tried { IsReached given.now result.bound (with_multiplier given.now.leaf.now (mu_of_multiplier multiplier)) }
    {
        let reached = self.bound_of_multiplier(given, multiplier);
        better(best, Step::Multiplier(mu_of(multiplier)), reached)
    }

    // The best of a step and each multiplier of the limit that is tried.
    fn try_multipliers(&mut self, given: &Given, best: Best) -> Best
        requires ready { IsReadyFor given.now self.old }
        requires best { IsBest given.now best }
        ensures ready { IsReadyFor given.now self.new }
        ensures best { IsBest given.now result }
        ensures better { best.bound ≤ℤ result.bound }
        ensures tried { (mu : ℕ) → IsTriedMultiplier mu → IsReached given.now result.bound (with_multiplier given.now.leaf.now mu) }
    {
        let best = self.try_multiplier(given, best, Multiplier::Nothing);
        let best = self.try_multiplier(given, best, Multiplier::Half);
        self.try_multiplier(given, best, Multiplier::Whole)
    }

    // Keeps what each line adds at least at a leaf whose table stands.
    fn keep_leasts(&mut self, given: &Given)
        requires ready { IsReadyFor given.now self.old }
        requires priced { IsPricedFor given.now.ranges.now.lines self.old.columns.leaf given.now.leaf.now }
        ensures ready { IsReadyFor given.now self.new }
        ensures columns { self.new.columns ≡ self.old.columns }
        ensures points { self.new.points ≡ self.old.points }
        ensures leasts { AreLeasts given.now self.new.leasts.items }
    {
        for line in 0..given.book.line_count() {
            let at = usize::from(line);
            let form = self.table.lines.given[at];
            self.leasts[at] = LineLeast {
                least: line_least(&self.columns, given, line, form),
            };
        }
    }

    // Makes the table that of a leaf, where it isn't already.
    fn turn_to(&mut self, given: &Given)
        requires { IsSweep given.now.yield_units.0 given.now.book.now self.old }
        ensures kept { IsSweep given.now.yield_units.0 given.now.book.now self.new }
        ensures leaf { self.new.table.leaf ≡ given.now.leaf.now }
    {
        if self.table.is_of(given.leaf) {
            return;
        }
        self.table.fill(&mut self.columns, given.leaf);
        copy_leaf(given.book.need_count(), given.leaf, &mut self.trial);
    }

    // Begins with the given leaf, and finds its bound.
    fn begin(&mut self, given: &Given)
        requires { IsSweep given.now.yield_units.0 given.now.book.now self.old }
        ensures { IsSweepOf given.now self.new }
    {
        self.turn_to(given);
        self.points = hold_point(given.ranges);
        price_for(&mut self.columns, self.points, given, given.leaf);
        self.keep_leasts(given);
        self.bound = bound_by(
            &self.columns,
            given,
            given.leaf,
            self.table.needs,
            self.table.lines.given.as_slice(),
        );
    }

    /// The best step of the given leaf, nothing included, with its bound. Where the leaf is the one of the call before, its forms are
    /// those of the table, and nothing is priced but where an interval is a point.
    pub(crate) fn best_step(&mut self, given: &Given) -> Best
        requires { IsSweep given.now.yield_units.0 given.now.book.now self.old }
        ensures kept { IsSweep given.now.yield_units.0 given.now.book.now self.new }
        ensures best { IsBest given.now result }
        ensures steps { (step : LeafOf) → IsStep given.now.leaf.now step → IsReached given.now result.bound step }
    {
        self.begin(given);
        let first = Best {
            step: Step::Nothing,
            bound: self.bound,
        };
        let best = self.try_places(given, first);
        self.try_multipliers(given, best)
    }
}
