//! The forms of lines at a leaf and at its steps.
ghost use Rattle.std.specs.Prelude.{[], All, ◌≡◌, ◌*◌, ◌<◌, ◌≤◌, pos, IfOk, true, length, slice_index_or};
ghost use Rattle.dual_bound.specs.LeafBound.{priced_needs as priced_needs_of};
ghost use Rattle.proof_tree.specs.Tree.{IsLeaf, with_price};
ghost use Rattle.dual_tune.specs.Payers.{ArePayersByDate};
ghost use Rattle.dual_tune.specs.Steps.{mu_of_multiplier, price_beside as price_beside_of, with_multiplier};
ghost use Rattle.dual_tune.specs.Table.{AreDateForms, AreFormsOf, AreLineForms, AreStepForms, HasRoomForLines, HasRoomForPayers, HasTableRoom, HasMultiplierRoom, IsTable, forms_beside, multiplier_forms as multiplier_forms_of};
ghost use Rattle.dual_tune.specs.declared.payers.Payers.{Payers as PayersOf};
ghost use Rattle.dual_tune.specs.declared.steps.Multiplier.{Multiplier as MultiplierOf};
ghost use Rattle.dual_tune.specs.declared.table.DateForms.{DateForms as DateFormsOf};

use crate::payers::{Payers, payers_by_date};
use crate::steps::{Multiplier, Side, mu_of, price_beside};
use crate::sweep::copy_leaf;
use dual_bound::{Columns, Form, priced_needs};
use escrow_desk::NoMemory;
use offer_book::{Book, COEFFICIENT_SCALE};
use proof_tree::{Leaf, PRICE_SCALE};
use std::alloc::Global;

/// The form of each line at a leaf, and with each multiplier of the limit that is tried.
#[derive(Drop)]
pub(crate) struct LineForms {
    /// At the leaf.
    pub given: Vec<Form>,
    /// Where the limit has no multiplier.
    pub free: Vec<Form>,
    /// Where it has a multiplier of a half.
    pub half: Vec<Form>,
    /// Where it has a multiplier of 1.
    pub whole: Vec<Form>,
}

/// The forms of the lines that pay for a need date at both price steps there, in the order of the payers.
#[derive(Drop)]
pub(crate) struct DateForms {
    /// Where its price is that of the date before.
    pub before: Vec<Form>,
    /// Where its price is that of the date after.
    pub after: Vec<Form>,
}

/// What belongs to one leaf of a book, whatever the ranges are: the forms of lines at it and at each of its steps.
#[derive(Drop)]
pub(crate) struct Table<'a> {
    /// The book.
    pub book: &'a Book,
    /// The lines that pay for each need date.
    pub payers: Vec<Payers>,
    /// The leaf.
    pub leaf: Leaf,
    /// What the needs are worth at its prices, scaled.
    pub needs: i128,
    /// The forms of each line.
    pub lines: LineForms,
    /// The forms at the price steps of each need date.
    pub dates: Vec<DateForms>,
}

// What the needs of a book are worth at a leaf's prices, scaled.
fn needs_worth(book: &Book, leaf: &Leaf) -> i128
    requires leaf { IsLeaf (length book.now.needs) leaf.now }
    ensures { result ≡ pos (COEFFICIENT_SCALE * priced_needs_of book.now.needs leaf.now.prices) }
{
    let worth = priced_needs(book.needs(), leaf.prices.as_slice());
    COEFFICIENT_SCALE as i128 * worth as i128
}

// So many forms.
fn no_forms(alloc: Global, count: usize) -> Result<Vec<Form>, NoMemory>
    ensures { IfOk result (λ forms. length forms.items ≡ count) }
{
    Ok(vec![in alloc; Form { slope: 0, slack: 0 }; count]?)
}

// A place for the forms at the price steps of each need date.
fn no_date_forms(alloc: Global, payers: &[Payers]) -> Result<Vec<DateForms>, NoMemory>
    ensures count { IfOk result (λ dates. length dates.items ≡ length payers.now) }
    ensures room { IfOk result (λ dates. HasRoomForPayers payers.now dates.items) }
{
    let mut dates = Vec::new(alloc);
    for of_date in payers {
        let count = of_date.lines.len();
        dates.push(DateForms {
            before: no_forms(alloc, count)?,
            after: no_forms(alloc, count)?,
        })?;
    }
    Ok(dates)
}

// Puts the form of each line at the leaf that is priced.
fn put_line_forms(columns: &Columns, lines: u16, forms: &mut [Form])
    requires lines { lines ≡ length columns.now.book.lines }
    requires room { length forms.old ≡ lines }
    ensures { AreLineForms columns.now.yield_units columns.now.book columns.now.leaf forms.new }
{
    for line in 0..lines {
        forms[usize::from(line)] = columns.form(line);
    }
}

// Puts the forms of some lines at the leaf that is priced.
fn put_forms(columns: &Columns, lines: &[u16], forms: &mut [Form])
    requires there { All (λ line. line < length columns.now.book.lines) lines.now }
    requires room { length forms.old ≡ length lines.now }
    ensures { AreFormsOf columns.now.yield_units columns.now.book columns.now.leaf lines.now forms.new }
{
    for place in 0..lines.len() {
        forms[place] = columns.form(lines[place]);
    }
}

// Gives the limit another multiplier in a leaf, prices the leaf, and puts the form of each line.
fn put_multiplier(columns: &mut Columns, lines: u16, leaf: &mut Leaf, mu: u64, forms: &mut [Form])
    requires lines { lines ≡ length columns.old.book.lines }
    requires leaf { IsLeaf (length columns.old.book.needs) leaf.old }
    requires mu { mu ≤ PRICE_SCALE }
    requires room { length forms.old ≡ lines }
    ensures columns { columns.new ≡ record { book = columns.old.book; yield_units = columns.old.yield_units; leaf = with_multiplier leaf.old mu } }
    ensures leaf { leaf.new ≡ with_multiplier leaf.old mu }
    ensures forms { AreLineForms columns.old.yield_units columns.old.book (with_multiplier leaf.old mu) forms.new }
{
    leaf.mu = mu;
    columns.price(leaf);
    put_line_forms(columns, lines, forms);
}

// Puts the forms of the lines that pay for a need date at a price step there, of the leaf that is priced.
fn put_step(
    columns: &mut Columns,
    lines: &[u16],
    leaf: &Leaf,
    place: u16,
    side: Side,
    forms: &mut [Form],
)
    requires leaf { IsLeaf (length columns.old.book.needs) leaf.now }
    requires priced { columns.old.leaf ≡ leaf.now }
    requires there { All (λ line. line < length columns.old.book.lines) lines.now }
    requires place { place < length columns.old.book.needs }
    requires room { length forms.old ≡ length lines.now }
    ensures columns { columns.new ≡ columns.old }
    ensures forms { AreFormsOf columns.old.yield_units columns.old.book (with_price leaf.now place (price_beside_of leaf.now.prices place side)) lines.now forms.new }
{
    let prices = leaf.prices.as_slice();
    columns.price_date(place, price_beside(prices, place, side));
    put_forms(columns, lines, forms);
    columns.price_date(place, prices[usize::from(place)]);
}

// Puts the forms of the lines that pay for a need date at both price steps there, of the leaf that is priced.
fn put_date(columns: &mut Columns, lines: &[u16], leaf: &Leaf, place: u16, date: &mut DateForms)
    requires leaf { IsLeaf (length columns.old.book.needs) leaf.now }
    requires priced { columns.old.leaf ≡ leaf.now }
    requires there { All (λ line. line < length columns.old.book.lines) lines.now }
    requires place { place < length columns.old.book.needs }
    requires room { HasRoomForLines lines.now date.old }
    ensures columns { columns.new ≡ columns.old }
    ensures room { HasRoomForLines lines.now date.new }
    ensures forms { AreDateForms columns.old.yield_units columns.old.book leaf.now place lines.now date.new }
{
    put_step(columns, lines, leaf, place, Side::Before, &mut date.before);
    put_step(columns, lines, leaf, place, Side::After, &mut date.after);
}

// Puts the forms at the price steps of each of so many need dates, of the leaf that is priced.
fn put_dates(
    columns: &mut Columns,
    payers: &[Payers],
    leaf: &Leaf,
    count: u16,
    dates: &mut [DateForms],
)
    requires leaf { IsLeaf (length columns.old.book.needs) leaf.now }
    requires priced { columns.old.leaf ≡ leaf.now }
    requires payers { ArePayersByDate columns.old.book (length columns.old.book.lines) payers.now }
    requires count { count ≡ length columns.old.book.needs }
    requires dates { length dates.old ≡ count }
    requires room { HasRoomForPayers payers.now dates.old }
    ensures columns { columns.new ≡ columns.old }
    ensures room { HasRoomForPayers payers.now dates.new }
    ensures forms { AreStepForms columns.old.yield_units columns.old.book leaf.now payers.now dates.new }
{
    for place in 0..count {
        let at = usize::from(place);
        let lines = payers[at].lines.as_slice();
        put_date(columns, lines, leaf, place, &mut dates[at]);
    }
}

impl LineForms {
    // Room for the forms of so many lines.
    fn make(alloc: Global, lines: u16) -> Result<LineForms, NoMemory>
        ensures { IfOk result (HasMultiplierRoom lines) }
    {
        let count = usize::from(lines);
        Ok(LineForms {
            given: no_forms(alloc, count)?,
            free: no_forms(alloc, count)?,
            half: no_forms(alloc, count)?,
            whole: no_forms(alloc, count)?,
        })
    }

    // Makes the forms those of a leaf, which is priced then.
    fn put(&mut self, columns: &mut Columns, lines: u16, leaf: &mut Leaf)
        requires lines { lines ≡ length columns.old.book.lines }
        requires leaf { IsLeaf (length columns.old.book.needs) leaf.old }
        requires room { HasMultiplierRoom lines self.old }
        ensures columns { columns.new ≡ record { book = columns.old.book; yield_units = columns.old.yield_units; leaf = leaf.old } }
        ensures leaf { leaf.new ≡ leaf.old }
        ensures room { HasMultiplierRoom lines self.new }
        ensures given { AreLineForms columns.old.yield_units columns.old.book leaf.old self.new.given.items }
        ensures multipliers { (multiplier : MultiplierOf) → AreLineForms columns.old.yield_units columns.old.book (with_multiplier leaf.old (mu_of_multiplier multiplier)) (multiplier_forms_of self.new multiplier) }
    {
        let own = leaf.mu;
        let nothing = mu_of(Multiplier::Nothing);
        let half = mu_of(Multiplier::Half);
        let whole = mu_of(Multiplier::Whole);
        put_multiplier(columns, lines, leaf, nothing, &mut self.free);
        put_multiplier(columns, lines, leaf, half, &mut self.half);
        put_multiplier(columns, lines, leaf, whole, &mut self.whole);
        put_multiplier(columns, lines, leaf, own, &mut self.given);
    }

    /// Each line's form with a multiplier of the limit that is tried.
    pub(crate) fn multiplier_forms(&self, multiplier: Multiplier) -> &[Form]
        ensures { result.now ≡ multiplier_forms_of self.now multiplier }
    {
        match multiplier {
            Multiplier::Nothing => self.free.as_slice(),
            Multiplier::Half => self.half.as_slice(),
            Multiplier::Whole => self.whole.as_slice(),
        }
    }
}

impl<'a> Table<'a> {
    /// Room for the forms of a leaf of a book.
    ///
    /// # Errors
    ///
    /// Where memory ran out.
    pub(crate) fn make(alloc: Global, book: &'a Book) -> Result<Table<'a>, NoMemory>
        ensures { IfOk result (HasTableRoom book.now) }
    {
        let payers = payers_by_date(alloc, book)?;
        let dates = no_date_forms(alloc, payers.as_slice())?;
        Ok(Table {
            book,
            payers,
            leaf: Leaf::of_zeros(alloc, true, book.need_count())?,
            needs: 0,
            lines: LineForms::make(alloc, book.line_count())?,
            dates,
        })
    }

    /// Whether the table is that of a leaf. Neither has weights of sums.
    pub(crate) fn is_of(&self, leaf: &Leaf) -> bool
        requires table { self.now.leaf.weights ≡ [] }
        requires leaf { leaf.now.weights ≡ [] }
        ensures { result ≡ true → self.now.leaf ≡ leaf.now }
    {
        self.leaf.rho == leaf.rho
            && self.leaf.mu == leaf.mu
            && self.leaf.prices.as_slice() == leaf.prices.as_slice()
    }

    /// Makes the table that of another leaf, without weights of sums. It takes no memory.
    pub(crate) fn fill(&mut self, columns: &mut Columns, leaf: &Leaf)
        requires leaf { IsLeaf (length columns.old.book.needs) leaf.now }
        requires unweighted { leaf.now.weights ≡ [] }
        requires room { HasTableRoom columns.old.book self.old }
        ensures own { columns.new.book ≡ columns.old.book }
        ensures yield_units { columns.new.yield_units ≡ columns.old.yield_units }
        ensures table { IsTable columns.old.yield_units columns.old.book self.new }
        ensures leaf { self.new.leaf ≡ leaf.now }
    {
        let dates = self.book.need_count();
        copy_leaf(dates, leaf, &mut self.leaf);
        self.needs = needs_worth(self.book, leaf);
        self.lines
            .put(columns, self.book.line_count(), &mut self.leaf);
        put_dates(
            columns,
            self.payers.as_slice(),
            leaf,
            dates,
            &mut self.dates,
        );
    }

    /// The lines that pay for a need date, counted from 0.
    pub(crate) fn payers_of(&self, place: u16) -> &[u16]
        requires { place < length self.now.payers.items }
        ensures { (e : PayersOf) → result.now ≡ (slice_index_or self.now.payers.items place e).lines.items }
    {
        let of_date = &self.payers[usize::from(place)];
        of_date.lines.as_slice()
    }

    /// The forms of the lines that pay for a need date at a price step there.
    pub(crate) fn step_forms(&self, place: u16, side: Side) -> &[Form]
        requires { place < length self.now.dates.items }
        ensures { (d : DateFormsOf) → result.now ≡ forms_beside (slice_index_or self.now.dates.items place d) side }
    {
        let date = &self.dates[usize::from(place)];
        match side {
            Side::Before => date.before.as_slice(),
            Side::After => date.after.as_slice(),
        }
    }
}
