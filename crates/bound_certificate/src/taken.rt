//! The lines of a certificate, each taken without memory.
ghost use Rattle.std.specs.Prelude.{◌≡◌, ◌≢◌, ◌≤◌, ◌+◌, ◌*◌, All, IfOk, IfErr, Ok, Err, Some, None, option_map, List, ℕ, ◌<◌, length, slice_index, false, true};
ghost use Rattle.proof_tree.specs.declared.tree.Leaf.{Leaf as LeafOf};
ghost use Rattle.proof_tree.specs.declared.weights.SumWeight.{SumWeight as SumWeightOf};
ghost use Rattle.bound_certificate.specs.declared.item.Item.TheVariants as item_of;
ghost use Rattle.bound_certificate.specs.declared.row.Row.TheVariants as row_of;
ghost use Rattle.bound_certificate.specs.declared.version.Version.TheVariants as version_of;
ghost use Rattle.bound_certificate.specs.declared.weighing.Weighing.{Weighing as WeighingOf};
ghost use Rattle.bound_certificate.specs.declared.weighing.Weighing.TheVariants as weighing_of;
ghost use Rattle.bound_certificate.specs.Grammar.{ArePlaces, are_rising, changes_of, is_tail, leaf_words, line_said, node_said, places_of, row_line, said_by};
ghost use Rattle.bound_certificate.specs.Packed.{IsVector, changed, restates as restates_of};
ghost use Rattle.bound_certificate.specs.Row.{AreRowNumbers};
ghost use Rattle.bound_certificate.specs.Taken.{AreFaulty, ArePricesAfter, HasRoom, HasRoomFor, IsBase, IsGiven, IsOfNumbers, IsPackedRow};
ghost use Rattle.line_words.specs.Words.{first_word, words_of};

use crate::certificate::Buy;
use crate::due::Due;
use crate::fault::FaultKind;
use crate::item::Item;
use crate::lent_leaf::LentLeaf;
use crate::limits::{MOST_DATES, MOST_VECTORS};
use crate::line::{node_row, rises};
use crate::near::rises_near;
use crate::packed::Change;
use crate::row::{Numbers, Row, read_row};
use crate::tail::{cut_tail, take_tail};
use crate::vector_room::VectorRoom;
use crate::version::Version;
use crate::weighing::Weighing;
use arrayvec::ArrayVec;
use proof_tree::{PRICE_SCALE, Part, Prices};

// So many changes are listed in a small room, which is sooner cleared: most leaves have few.
const FEW_CHANGES: usize = 16;

/// The changes that numbers are by turns, in room for so many: place and price of each.
pub(crate) fn list_changes<const MOST: usize>(numbers: &[u64]) -> ArrayVec<Change, MOST>
    requires places { ArePlaces 65_535 (changes_of numbers.now) }
    requires few { length numbers.now ≤ 2 * MOST }
    ensures { result.items ≡ changes_of numbers.now }
{
    let mut changes = ArrayVec::new();
    let mut place = 0;
    while place + 1 < numbers.len() {
        changes.push(Change {
            place: numbers[place] as u16,
            price: numbers[place + 1],
        });
        place += 2;
    }
    changes
}

// Whether each place is above the one before.
fn places_rise(changes: &[Change]) -> bool
    ensures { result ≡ are_rising (places_of changes.now) }
{
    for place in 1..changes.len() {
        if changes[place - 1].place >= changes[place].place {
            return false;
        }
    }
    true
}

// Whether a change is to the vector's own price.
fn restates_vector(vector: &[u64], changes: &[Change]) -> bool
    requires { ArePlaces (length vector.now) changes.now }
    ensures { result ≡ restates_of (Some vector.now) changes.now }
{
    for change in changes {
        if change.price == vector[usize::from(change.place) - 1] {
            return true;
        }
    }
    false
}

// Whether a step of stairs is to the price of the one before, which first is the greatest.
fn repeats(steps: &[Change]) -> bool
    ensures { result ≡ restates_of None steps.now }
{
    let mut before = 2 * PRICE_SCALE;
    for step in steps {
        if step.price == before {
            return true;
        }
        before = step.price;
    }
    false
}

// Whether a change is to the price that stands there without it.
fn restates(vector: Option<&[u64]>, changes: &[Change]) -> bool
    requires { (prices : List ℕ) → option_map (λ v. v.now) vector ≡ Some prices → ArePlaces (length prices) changes.now }
    ensures { result ≡ restates_of (option_map (λ v. v.now) vector.entry) changes.now }
{
    match vector {
        Some(vector) => restates_vector(vector, changes),
        None => repeats(changes),
    }
}

/// Puts the price of each change to its place.
pub(crate) fn put_changes(prices: &mut Prices, changes: &[Change])
    requires { ArePlaces (length prices.old) changes.now }
    ensures { prices.new ≡ changed (length prices.old) (Some prices.old) changes.now }
{
    for change in changes {
        prices.put(change.place - 1, change.price);
    }
}

/// Puts stairs: the greatest price, and from the place of each step on its price, up to the next. Places rise.
pub(crate) fn put_stairs(prices: &mut Prices, dates: u16, steps: &[Change])
    requires dates { length prices.old ≡ dates }
    requires places { ArePlaces dates steps.now }
    requires rising { are_rising (places_of steps.now) ≡ true }
    ensures { prices.new ≡ changed dates None steps.now }
{
    let mut price = 2 * PRICE_SCALE;
    let mut next = 0;
    for place in 0..dates {
        if next < steps.len() && steps[next].place == place + 1 {
            price = steps[next].price;
            next += 1;
        }
        prices.put(place, price);
    }
}

// Puts the prices that a vector has after changes, or those of stairs.
fn put_prices(prices: &mut Prices, dates: u16, vector: Option<&[u64]>, changes: &[Change])
    requires dates { length prices.old ≡ dates }
    requires vector { IsBase dates (option_map (λ v. v.now) vector) }
    requires places { ArePlaces dates changes.now }
    requires rising { are_rising (places_of changes.now) ≡ true }
    ensures { prices.new ≡ changed dates (option_map (λ v. v.now) vector.entry) changes.now }
{
    match vector {
        Some(vector) => {
            prices.copy(vector);
            put_changes(prices, changes);
        }
        None => put_stairs(prices, dates, changes),
    }
}

// Takes over the prices that a vector has after changes, or those of stairs.
fn take_prices(
    prices: &mut Prices,
    dates: u16,
    vector: Option<&[u64]>,
    changes: &[Change],
) -> Result<(), FaultKind>
    requires same { length prices.old ≡ dates }
    requires vector { IsBase dates (option_map (λ v. v.now) vector) }
    requires places { ArePlaces dates changes.now }
    ensures dates { length prices.new ≡ dates }
    ensures ok { IfOk result (λ _. ArePricesAfter dates (option_map (λ v. v.now) vector.entry) changes.now prices.new) }
    ensures err { IfErr result (AreFaulty dates (option_map (λ v. v.now) vector.entry) changes.now) }
{
    if restates(vector, changes) {
        return Err(FaultKind::Number);
    }
    if !places_rise(changes) {
        return Err(FaultKind::Order);
    }
    put_prices(prices, dates, vector, changes);
    if rises_near(prices.as_slice(), changes) {
        return Err(FaultKind::Order);
    }
    Ok(())
}

// Takes over the prices that a vector has after the many changes that numbers are, or those of stairs. It isn't inlined: their room
// would stand on the stack while any line is read.
#[inline(never)]
fn take_many(
    prices: &mut Prices,
    dates: u16,
    vector: Option<&[u64]>,
    numbers: &[u64],
) -> Result<(), FaultKind>
    requires same { length prices.old ≡ dates }
    requires vector { IsBase dates (option_map (λ v. v.now) vector) }
    requires dates { dates ≤ MOST_DATES }
    requires places { ArePlaces dates (changes_of numbers.now) }
    requires few { length numbers.now ≤ 2 * MOST_DATES }
    ensures dates { length prices.new ≡ dates }
    ensures ok { IfOk result (λ _. ArePricesAfter dates (option_map (λ v. v.now) vector.entry) (changes_of numbers.now) prices.new) }
    ensures err { IfErr result (AreFaulty dates (option_map (λ v. v.now) vector.entry) (changes_of numbers.now)) }
{
    let many = list_changes::<MOST_DATES>(numbers);
    take_prices(prices, dates, vector, many.as_slice())
}

// Takes over the prices that a vector has after the changes that numbers are, or those of stairs.
fn take_changed(
    prices: &mut Prices,
    dates: u16,
    vector: Option<&[u64]>,
    numbers: &[u64],
) -> Result<(), FaultKind>
    requires same { length prices.old ≡ dates }
    requires vector { IsBase dates (option_map (λ v. v.now) vector) }
    requires dates { dates ≤ MOST_DATES }
    requires places { ArePlaces dates (changes_of numbers.now) }
    requires few { length numbers.now ≤ 2 * MOST_DATES }
    ensures dates { length prices.new ≡ dates }
    ensures ok { IfOk result (λ _. ArePricesAfter dates (option_map (λ v. v.now) vector.entry) (changes_of numbers.now) prices.new) }
    ensures err { IfErr result (AreFaulty dates (option_map (λ v. v.now) vector.entry) (changes_of numbers.now)) }
{
    if numbers.len() <= 2 * FEW_CHANGES {
        let few = list_changes::<FEW_CHANGES>(numbers);
        take_prices(prices, dates, vector, few.as_slice())
    } else {
        take_many(prices, dates, vector, numbers)
    }
}

// A leaf with all its prices, by its numbers.
fn take_priced(numbers: &[u64], leaf: &mut LentLeaf) -> Result<Item, FaultKind>
    requires numbers { AreRowNumbers (length leaf.old.prices) 0 row_of.Priced numbers.now }
    ensures dates { length leaf.new.prices ≡ length leaf.old.prices }
    ensures ok { IfOk result (λ item. (dates : ℕ) (vectors : List (List ℕ)) → IsGiven dates (said_by dates vectors row_of.Priced numbers.now) vectors vectors leaf.new item) }
    ensures item { IfOk result (λ item. item ≡ item_of.Leaf) }
    ensures err { IfErr result (λ found. (dates : ℕ) (vectors : List (List ℕ)) → said_by dates vectors row_of.Priced numbers.now ≡ Err found) }
{
    let prices = &numbers[2..];
    if rises(prices) {
        return Err(FaultKind::Order);
    }
    leaf.leaf.prices.copy(prices);
    leaf.weigh(Weighing::WholeOrNone.weight(numbers[0]), numbers[1]);
    Ok(Item::Leaf)
}

// A leaf of a vector or of stairs, with changes, by its numbers.
fn take_leaf(
    weighing: Weighing,
    dates: u16,
    vectors: &VectorRoom,
    numbers: &[u64],
    leaf: &mut LentLeaf,
) -> Result<Item, FaultKind>
    requires dates { dates ≤ MOST_DATES }
    requires numbers { AreRowNumbers dates (length vectors.now) (row_of.Leaf weighing) numbers.now }
    requires vectors { All (IsVector dates) vectors.now }
    requires few { length vectors.now ≤ MOST_VECTORS }
    requires leaf { length leaf.old.prices ≡ dates }
    ensures dates { length leaf.new.prices ≡ dates }
    ensures ok { IfOk result (IsGiven dates (said_by dates vectors.now (row_of.Leaf weighing) numbers.now) vectors.now vectors.now leaf.new) }
    ensures lent { IfOk result (λ item. item ≢ item_of.Leaf → leaf.new ≡ leaf.old) }
    ensures numbers { IfOk result (IsOfNumbers weighing (said_by dates vectors.now (row_of.Leaf weighing) numbers.now) numbers.now leaf.new.weights) }
    ensures err { IfErr result (λ found. said_by dates vectors.now (row_of.Leaf weighing) numbers.now ≡ Err found) }
{
    let vector = vectors.of(numbers[2] as u16);
    take_changed(&mut leaf.leaf.prices, dates, vector, &numbers[3..])?;
    leaf.weigh(weighing.weight(numbers[0]), numbers[1]);
    Ok(Item::Leaf)
}

// A purchase of a line from `least` on.
fn take_purchase(least: u32, numbers: &[u64]) -> Result<Item, FaultKind>
    requires two { length numbers.now ≡ 2 }
    requires line { slice_index numbers.now 0 ≤ 65_535 }
    ensures ok { IfOk result (λ item. (dates : ℕ) (vectors : List (List ℕ)) (leaf : LeafOf) → IsGiven dates (said_by dates vectors (row_of.Buy least) numbers.now) vectors vectors leaf item) }
    ensures numbers { (w : WeighingOf) (dates : ℕ) (vectors : List (List ℕ)) (weights : List SumWeightOf) → IfOk result (IsOfNumbers w (said_by dates vectors (row_of.Buy least) numbers.now) numbers.now weights) }
    ensures err { IfErr result (λ found. (dates : ℕ) (vectors : List (List ℕ)) → said_by dates vectors (row_of.Buy least) numbers.now ≡ Err found) }
{
    if numbers[0] < u64::from(least) {
        return Err(FaultKind::Order);
    }
    Ok(Item::Buy(Buy {
        line: numbers[0] as u16,
        units: numbers[1],
    }))
}

// A vector, for which there is room.
fn take_vector(vectors: &mut VectorRoom, numbers: &[u64]) -> Result<Item, FaultKind>
    requires room { length vectors.old < MOST_VECTORS }
    requires few { length numbers.now ≤ MOST_DATES }
    requires prices { All (λ price. price ≤ 2 * PRICE_SCALE) numbers.now }
    ensures ok { IfOk result (λ item. (dates : ℕ) (leaf : LeafOf) → IsGiven dates (said_by dates vectors.old row_of.Vector numbers.now) vectors.old vectors.new leaf item) }
    ensures numbers { (w : WeighingOf) (dates : ℕ) (weights : List SumWeightOf) → IfOk result (IsOfNumbers w (said_by dates vectors.old row_of.Vector numbers.now) numbers.now weights) }
    ensures err { IfErr result (λ found. (dates : ℕ) → said_by dates vectors.old row_of.Vector numbers.now ≡ Err found) }
{
    if rises(numbers) {
        return Err(FaultKind::Order);
    }
    vectors.put(numbers);
    Ok(Item::Vector)
}

// What the numbers of a line say that may have no fault but one of order.
fn take_said(
    row: Row,
    dates: u16,
    vectors: &mut VectorRoom,
    numbers: &[u64],
    leaf: &mut LentLeaf,
) -> Result<Item, FaultKind>
    requires dates { dates ≤ MOST_DATES }
    requires numbers { AreRowNumbers dates (length vectors.old) row numbers.now }
    requires vectors { All (IsVector dates) vectors.old }
    requires few { length vectors.old ≤ MOST_VECTORS }
    requires room { HasRoomFor row vectors.old }
    requires leaf { length leaf.old.prices ≡ dates }
    ensures dates { length leaf.new.prices ≡ dates }
    ensures ok { IfOk result (IsGiven dates (said_by dates vectors.old row numbers.now) vectors.old vectors.new leaf.new) }
    ensures lent { IfOk result (λ item. item ≢ item_of.Leaf → leaf.new ≡ leaf.old) }
    ensures numbers { (w : WeighingOf) → IsPackedRow w row → IfOk result (IsOfNumbers w (said_by dates vectors.old row numbers.now) numbers.now leaf.new.weights) }
    ensures err { IfErr result (λ found. said_by dates vectors.old row numbers.now ≡ Err found) }
{
    match row {
        Row::Portfolio { .. } => Ok(Item::Portfolio(Some(numbers[0] as u32))),
        Row::Buy { least } => take_purchase(least, numbers),
        Row::Gap { .. } => Ok(Item::Gap(numbers[0])),
        Row::Vectors => Ok(Item::Vectors(numbers[0] as u32)),
        Row::Vector => take_vector(vectors, numbers),
        Row::Nodes => Ok(Item::Nodes(numbers[0] as u32)),
        Row::Split => Ok(Item::Split {
            part: Part::Line(numbers[0] as u16),
            at: numbers[1],
        }),
        Row::SumSplit => Ok(Item::Split {
            part: Part::Sum(numbers[0] as u16 - 1),
            at: numbers[1],
        }),
        Row::Point => Ok(Item::Point),
        Row::Priced => take_priced(numbers, leaf),
        Row::Leaf(weighing) => take_leaf(weighing, dates, vectors, numbers, leaf),
        // A tail is read apart: it is no line.
        Row::Tail => Err(FaultKind::Count),
        Row::End => Ok(Item::End),
    }
}

// The row that a line has to be, and whether a line of its word may stand.
#[derive(Clone, Copy, Debug)]
struct DueRow {
    row: Row,
    may: bool,
}

// A row that may stand.
fn due_row(row: Row) -> DueRow
    ensures { result ≡ record { row = row; may = true } }
{
    DueRow { row, may: true }
}

// What a line says that begins with a row's word, where such a line may stand.
fn take_row(
    due: DueRow,
    dates: u16,
    vectors: &mut VectorRoom,
    line: &[u8],
    numbers: &mut Numbers,
    leaf: &mut LentLeaf,
) -> Result<Item, FaultKind>
    requires dates { dates ≤ MOST_DATES }
    requires vectors { All (IsVector dates) vectors.old }
    requires room { HasRoomFor due.row vectors.old }
    requires leaf { length leaf.old.prices ≡ dates }
    ensures dates { length leaf.new.prices ≡ dates }
    ensures ok { IfOk result (IsGiven dates (row_line dates vectors.old due.row due.may line.now) vectors.old vectors.new leaf.new) }
    ensures lent { IfOk result (λ item. item ≢ item_of.Leaf → leaf.new ≡ leaf.old) }
    ensures numbers { (w : WeighingOf) → IsPackedRow w due.row → IfOk result (IsOfNumbers w (row_line dates vectors.old due.row due.may line.now) numbers.new.items leaf.new.weights) }
    ensures err { IfErr result (λ found. row_line dates vectors.old due.row due.may line.now ≡ Err found) }
{
    read_row(due.row, due.may, dates, vectors.count(), line, numbers)?;
    take_said(due.row, dates, vectors, numbers.as_slice(), leaf)
}

// What a leaf's line of version 3 says, which may have a tail.
fn take_tailed(
    may: bool,
    dates: u16,
    vectors: &mut VectorRoom,
    line: &[u8],
    numbers: &mut Numbers,
    leaf: &mut LentLeaf,
) -> Result<Item, FaultKind>
    requires dates { dates ≤ MOST_DATES }
    requires vectors { All (IsVector dates) vectors.old }
    requires leaf { length leaf.old.prices ≡ dates }
    requires first { is_tail (first_word line.now) ≡ false }
    ensures dates { length leaf.new.prices ≡ dates }
    ensures ok { IfOk result (IsGiven dates (leaf_words dates vectors.old may (words_of line.now)) vectors.old vectors.new leaf.new) }
    ensures item { IfOk result (λ item. item ≡ item_of.Leaf) }
    ensures numbers { IfOk result (IsOfNumbers weighing_of.Number (leaf_words dates vectors.old may (words_of line.now)) numbers.new.items leaf.new.weights) }
    ensures err { IfErr result (λ found. leaf_words dates vectors.old may (words_of line.now) ≡ Err found) }
{
    let cut = cut_tail(line);
    let due = DueRow {
        row: Row::Leaf(Weighing::Number),
        may,
    };
    let mut weights = ArrayVec::new();
    let tail = take_tail(dates, cut.rest, numbers, &mut weights);
    let front = take_row(due, dates, vectors, cut.front, numbers, leaf);
    match (front, tail) {
        (Ok(item), Ok(())) => {
            leaf.weigh_sums(weights.as_slice());
            Ok(item)
        }
        (Ok(_), Err(found)) => Err(found),
        (Err(found), Ok(())) => Err(found),
        (Err(one), Err(other)) => Err(one.earlier(other)),
    }
}

// What a node's line says that begins with a row's word, where such a line may stand.
fn take_node(
    due: DueRow,
    dates: u16,
    vectors: &mut VectorRoom,
    line: &[u8],
    numbers: &mut Numbers,
    leaf: &mut LentLeaf,
) -> Result<Item, FaultKind>
    requires dates { dates ≤ MOST_DATES }
    requires vectors { All (IsVector dates) vectors.old }
    requires room { HasRoomFor due.row vectors.old }
    requires leaf { length leaf.old.prices ≡ dates }
    requires first { due.row ≡ row_of.Leaf weighing_of.Number → is_tail (first_word line.now) ≡ false }
    ensures dates { length leaf.new.prices ≡ dates }
    ensures ok { IfOk result (IsGiven dates (node_said dates vectors.old due.row due.may line.now) vectors.old vectors.new leaf.new) }
    ensures lent { IfOk result (λ item. item ≢ item_of.Leaf → leaf.new ≡ leaf.old) }
    ensures numbers { (w : WeighingOf) → IsPackedRow w due.row → IfOk result (IsOfNumbers w (node_said dates vectors.old due.row due.may line.now) numbers.new.items leaf.new.weights) }
    ensures err { IfErr result (λ found. node_said dates vectors.old due.row due.may line.now ≡ Err found) }
{
    if due.row.may_have_tail() {
        return take_tailed(due.may, dates, vectors, line, numbers, leaf);
    }
    take_row(due, dates, vectors, line, numbers, leaf)
}

/// Takes a line, without its line feed, where this is due in a version and these vectors came: what it says, a vector to the others, and
/// a leaf's weights into `leaf`. Its numbers, before a tail, are then in `numbers`.
///
/// # Errors
///
/// Why it isn't one that is due. Prices may then have come into `leaf`.
pub(crate) fn take_line(
    version: Version,
    due: Due,
    dates: u16,
    vectors: &mut VectorRoom,
    line: &[u8],
    numbers: &mut Numbers,
    leaf: &mut LentLeaf,
) -> Result<Item, FaultKind>
    requires dates { dates ≤ MOST_DATES }
    requires vectors { All (IsVector dates) vectors.old }
    requires leaf { length leaf.old.prices ≡ dates }
    requires room { HasRoom due vectors.old }
    ensures dates { length leaf.new.prices ≡ dates }
    ensures ok { IfOk result (IsGiven dates (line_said version dates vectors.old due line.now) vectors.old vectors.new leaf.new) }
    ensures lent { IfOk result (λ item. item ≢ item_of.Leaf → leaf.new ≡ leaf.old) }
    ensures numbers { (w : WeighingOf) → version ≡ version_of.Packed w → IfOk result (IsOfNumbers w (line_said version dates vectors.old due line.now) numbers.new.items leaf.new.weights) }
    ensures err { IfErr result (λ kind. line_said version dates vectors.old due line.now ≡ Err kind) }
{
    let row = match due {
        Due::Title if version.title() == line => return Ok(Item::Header),
        Due::Title => return Err(FaultKind::Header),
        Due::Portfolio if b"portfolio none".as_slice() == line => return Ok(Item::Portfolio(None)),
        Due::End { trees } if trees > 0 => return Err(FaultKind::Count),
        Due::Nothing => return Err(FaultKind::Trailing),
        Due::Portfolio => due_row(Row::Portfolio {
            most: version.most_buys(),
        }),
        Due::Buy { least, .. } => due_row(Row::Buy { least }),
        Due::Gap { most } => due_row(Row::Gap { most }),
        Due::VectorCount => due_row(Row::Vectors),
        Due::Vector { .. } => due_row(Row::Vector),
        Due::Count => due_row(Row::Nodes),
        Due::Node { trees, .. } => {
            let due = DueRow {
                row: node_row(version, line),
                may: trees > 0,
            };
            return take_node(due, dates, vectors, line, numbers, leaf);
        }
        Due::End { .. } => due_row(Row::End),
    };
    take_row(row, dates, vectors, line, numbers, leaf)
}
