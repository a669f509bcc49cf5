//! A line of a word and numbers, at hand whole.
ghost use Rattle.std.specs.Prelude.{◌≡◌, ◌≢◌, ◌≤◌, ◌+◌, ◌==◌, ℕ, [], false, IfSome, IsTrue, MatchResult, Ok, Err, None, Some, length, count_by};
ghost use Rattle.bound_certificate.specs.declared.fault.FaultKind.TheVariants as kind;
ghost use Rattle.bound_certificate.specs.declared.row.Row.TheVariants as row_of;
ghost use Rattle.bound_certificate.specs.declared.weighing.Weighing.TheVariants as weighing_of;
ghost use Rattle.bound_certificate.specs.Row.{ArePricesBehind, AreReadTo, IsNextOf, leaf_range as leaf_range_of, numbers_by, price_range, row_fits, row_range, row_said, row_word, tail_range as tail_range_of, weight_range as weight_range_of};
ghost use Rattle.line_words.specs.Words.{parts_behind};

use crate::fault::FaultKind;
use crate::limits::{MOST_DATES, MOST_NODES, MOST_NUMBERS, MOST_VECTORS};
use crate::weighing::Weighing;
use arrayvec::ArrayVec;
use line_words::{Range, Taken, cut_at, digit_count, front_number_in, quick_front_number};
use proof_tree::{GREATEST_UNITS, MOST_WEIGHTS, PRICE_SCALE};

// So many bytes at most are gone through before spaces are summed up: a byte counts them.
const FEW_BYTES: usize = 128;

/// The numbers of a line.
pub(crate) type Numbers = ArrayVec<u64, MOST_NUMBERS>;

/// What a line of a word and numbers is about: a row of the table of lines.
#[derive(Clone, Copy, Debug, PartialEq, Eq)]
pub(crate) enum Row {
    /// `portfolio`: how many purchases, at most so many.
    Portfolio { most: u64 },
    /// `buy`: a purchase of a line from `least` on.
    Buy { least: u32 },
    /// `gap`, with at most so many cents.
    Gap { most: u64 },
    /// `vectors`: how many.
    Vectors,
    /// `v`: a vector.
    Vector,
    /// `nodes`: how many.
    Nodes,
    /// `s`: a split of a line.
    Split,
    /// `t`: a split of a sum.
    SumSplit,
    /// `p`: a point.
    Point,
    /// `l`: a leaf with all its prices.
    Priced,
    /// `l`: a leaf of a vector or of stairs, with changes, that weighs the cost so. In version 3 it may have a tail, which is a row of its own.
    Leaf(Weighing),
    /// `t`: the tail of a leaf's line, with weights of sums.
    Tail,
    /// `end`.
    End,
}

// The range of a price.
fn price() -> Range
    ensures { result ≡ price_range }
{
    Range::new(0, 2 * PRICE_SCALE)
}

// The range of the number at a place of a leaf with all its prices, from 1.
fn weight_range(place: usize) -> Range
    ensures { result ≡ weight_range_of place }
{
    match place {
        1 => Range::new(0, 1),
        2 => Range::new(0, PRICE_SCALE),
        _ => price(),
    }
}

// The range of the number at a place of a leaf with changes, from 1.
fn leaf_range(weighing: Weighing, dates: u16, vectors: u16, place: usize) -> Range
    ensures { result ≡ leaf_range_of weighing dates vectors place }
{
    match place {
        1 => Range::new(0, weighing.most()),
        2 => Range::new(0, PRICE_SCALE),
        3 => Range::new(weighing.least_vector(), u64::from(vectors)),
        _ if place % 2 == 0 => Range::new(1, u64::from(dates)),
        _ => price(),
    }
}

// The range of the number at a place of a tail, from 1.
fn tail_range(dates: u16, place: usize) -> Range
    ensures { result ≡ tail_range_of dates place }
{
    match place % 3 {
        1 => Range::new(1, u64::from(dates)),
        2 => Range::new(0, 1),
        _ => Range::new(1, PRICE_SCALE),
    }
}

impl Row {
    /// How the line's first word is written.
    pub(crate) fn word(self) -> &'static [u8]
        ensures { result.now ≡ row_word self }
    {
        match self {
            Row::Portfolio { .. } => b"portfolio",
            Row::Buy { .. } => b"buy",
            Row::Gap { .. } => b"gap",
            Row::Vectors => b"vectors",
            Row::Vector => b"v",
            Row::Nodes => b"nodes",
            Row::Split => b"s",
            Row::SumSplit | Row::Tail => b"t",
            Row::Point => b"p",
            Row::Priced | Row::Leaf(_) => b"l",
            Row::End => b"end",
        }
    }

    /// Whether it is that of a leaf of version 3, whose line may have a tail.
    pub(crate) fn may_have_tail(self) -> bool
        ensures yes { IsTrue result → self ≡ row_of.Leaf weighing_of.Number }
        ensures no { result ≡ false → self ≢ row_of.Leaf weighing_of.Number }
    {
        match self {
            Row::Leaf(Weighing::Number) => true,
            Row::Leaf(Weighing::WholeOrNone)
            | Row::Portfolio { .. }
            | Row::Buy { .. }
            | Row::Gap { .. }
            | Row::Vectors
            | Row::Vector
            | Row::Nodes
            | Row::Split
            | Row::SumSplit
            | Row::Point
            | Row::Priced
            | Row::Tail
            | Row::End => false,
        }
    }

    /// Whether so many numbers make a line.
    pub(crate) fn fits(self, dates: u16, count: usize) -> bool
        requires { dates ≤ MOST_DATES }
        ensures { result ≡ row_fits dates self count }
    {
        let dates = usize::from(dates);
        match self {
            Row::Portfolio { .. } | Row::Gap { .. } | Row::Vectors | Row::Nodes => count == 1,
            Row::Buy { .. } | Row::Split | Row::SumSplit => count == 2,
            Row::Point | Row::End => count == 0,
            Row::Vector => count == dates,
            Row::Priced => count == 2 + dates,
            Row::Leaf(_) => 3 <= count && count <= 3 + 2 * dates && count % 2 == 1,
            Row::Tail => 3 <= count && count <= 3 * MOST_WEIGHTS && count % 3 == 0,
        }
    }

    // The range of the number at a place of the line, from 1 behind its first word.
    fn range(self, dates: u16, vectors: u16, place: usize) -> Range
        ensures { result ≡ row_range dates vectors self place }
    {
        match self {
            Row::Portfolio { most } | Row::Gap { most } => Range::new(0, most),
            Row::Buy { .. } if place == 1 => Range::new(0, 65_535),
            Row::Buy { .. } => Range::new(1, GREATEST_UNITS),
            Row::Vectors => Range::new(0, MOST_VECTORS),
            Row::Vector => price(),
            Row::Nodes => Range::new(1, MOST_NODES),
            Row::Split if place == 1 => Range::new(0, 65_535),
            Row::SumSplit if place == 1 => Range::new(1, u64::from(dates)),
            Row::Split | Row::SumSplit => Range::new(0, GREATEST_UNITS),
            Row::Priced => weight_range(place),
            Row::Leaf(weighing) => leaf_range(weighing, dates, vectors, place),
            Row::Tail => tail_range(dates, place),
            Row::Point | Row::End => Range::new(0, 0),
        }
    }

    // Whether all numbers behind so many are prices.
    fn are_prices_behind(self, count: usize) -> bool
        ensures { IsTrue result → (dates vectors : ℕ) → ArePricesBehind (row_range dates vectors self) count }
    {
        match self {
            Row::Vector => true,
            Row::Priced => 2 <= count,
            _ => false,
        }
    }
}

// The price that the first of the words is, where it has so many digits and is quickly read.
#[inline(always)]
fn quick_price(words: Option<&[u8]>, digits: usize) -> Option<Taken<'_>>
    ensures { IfSome result (IsNextOf price_range (parts_behind 32 words.entry)) }
{
    match quick_front_number(words?, digits) {
        Some(taken) if price().contains(taken.number) => Some(taken),
        _ => None,
    }
}

// How many digits the first of the words has, as far as that is quickly seen.
#[inline(never)]
fn digits_of(words: Option<&[u8]>) -> usize {
    match words {
        Some(bytes) => digit_count(bytes),
        None => 0,
    }
}

// Reads on, where all numbers that follow are prices, as long as they have so many digits: how long a price is doesn't have to be found
// before the next is looked at. It isn't inlined, so that its loop has the registers.
#[inline(never)]
fn read_alike<'a>(
    row: Row,
    dates: u16,
    vectors: u16,
    words: Option<&[u8]>,
    begun: Option<&'a [u8]>,
    digits: usize,
    numbers: &mut Numbers,
) -> Option<&'a [u8]>
    requires begun { AreReadTo (row_range dates vectors row) (parts_behind 32 words) numbers.old.items (parts_behind 32 begun) }
    requires prices { ArePricesBehind (row_range dates vectors row) (length numbers.old.items) }
    ensures read { AreReadTo (row_range dates vectors row) (parts_behind 32 words.entry) numbers.new.items (parts_behind 32 result) }
    ensures left { length (parts_behind 32 result) ≤ length (parts_behind 32 begun.entry) }
{
    let mut rest = begun;
    while numbers.len() < MOST_NUMBERS {
        let Some(taken) = quick_price(rest, digits) else {
            break;
        };
        numbers.push(taken.number);
        rest = taken.rest;
    }
    rest
}

// Reads the numbers that words are. Prices fall, so that most have as many digits as the one before.
fn read_numbers(
    row: Row,
    dates: u16,
    vectors: u16,
    words: Option<&[u8]>,
    numbers: &mut Numbers,
) -> Result<(), FaultKind>
    requires empty { numbers.old.items ≡ [] }
    ensures { MatchResult result (λ _. numbers_by (row_range dates vectors row) 1 (parts_behind 32 words.entry) ≡ Some numbers.new.items)
        (λ found. (found ≡ kind.Number) × (length (parts_behind 32 words.entry) ≤ MOST_NUMBERS → numbers_by (row_range dates vectors row) 1 (parts_behind 32 words.entry) ≡ None)) }
{
    let mut rest = words;
    while let Some(bytes) = rest {
        if numbers.len() >= MOST_NUMBERS {
            return Err(FaultKind::Number);
        }
        let range = row.range(dates, vectors, numbers.len() + 1);
        let Some(taken) = front_number_in(range, bytes) else {
            return Err(FaultKind::Number);
        };
        numbers.push(taken.number);
        rest = taken.rest;
        if row.are_prices_behind(numbers.len()) {
            rest = read_alike(row, dates, vectors, words, rest, digits_of(rest), numbers);
        }
    }
    Ok(())
}

// How many spaces a few bytes have. They are counted by a byte, so that many bytes are looked at together.
fn few_spaces(bytes: &[u8]) -> u8
    requires { length bytes.now ≤ FEW_BYTES }
    ensures { result ≡ count_by (λ byte. byte == 32) bytes.now }
{
    let mut spaces = 0u8;
    for byte in bytes {
        if *byte == b' ' {
            spaces += 1;
        }
    }
    spaces
}

// How many spaces a line has.
fn count_spaces(line: &[u8]) -> usize
    ensures { result ≡ count_by (λ byte. byte == 32) line.now }
{
    let mut spaces = 0;
    let mut rest = line;
    while rest.len() > FEW_BYTES {
        let (front, behind) = rest.split_at(FEW_BYTES);
        spaces += usize::from(few_spaces(front));
        rest = behind;
    }
    spaces + usize::from(few_spaces(rest))
}

/// Reads the numbers of a line that begins with a row's word, where such a line may stand: in place of those that were there.
///
/// # Errors
///
/// The first of `Header`, `Count` and `Number` that stands.
pub(crate) fn read_row(
    row: Row,
    may: bool,
    dates: u16,
    vectors: u16,
    line: &[u8],
    numbers: &mut Numbers,
) -> Result<(), FaultKind>
    requires { dates ≤ MOST_DATES }
    ensures { MatchResult result (λ _. row_said dates vectors row may line.now ≡ Ok numbers.new.items)
        (λ found. row_said dates vectors row may line.now ≡ Err found) }
{
    numbers.clear();
    let first = cut_at(line, b' ');
    if first.front != row.word() {
        return Err(FaultKind::Header);
    }
    if !may {
        return Err(FaultKind::Count);
    }
    // A line may be long, so its words are counted only where they aren't the numbers of one.
    match read_numbers(row, dates, vectors, first.rest, numbers) {
        Ok(()) if row.fits(dates, numbers.len()) => Ok(()),
        Err(kind) if row.fits(dates, count_spaces(line)) => Err(kind),
        _ => Err(FaultKind::Count),
    }
}
