//! The ranges of the deepest node of deep trees.
ghost use Rattle.std.specs.Prelude.{◌≡◌, ◌≤◌, ◌∷◌, [], List, IfOk, IfSome};
ghost use Rattle.escrow_units.specs.declared.limits.TheConstants.{AMOUNT_LIMIT as AMOUNT_LIMIT_OF};
ghost use Rattle.offer_book.specs.declared.line.LineKind.TheVariants as kind;
ghost use Rattle.node_ranges.specs.Ranges.{AreTight};
ghost use Rattle.node_pool.specs.Pool.{IsInHand};
ghost use Rattle.node_pool.specs.Way.{AreProper, IsWay, Step, ranges_at};

use escrow_desk::NoMemory;
use escrow_units::{AMOUNT_LIMIT, ClosedDays, Day};
use figure_sheets::{Unread, up_to};
use node_pool::{NodeId, Pool};
use node_ranges::{Ranges, range_laws};
use offer_book::{Book, Line, LineKind};
use proof_tree::Part;
use std::alloc::Global;

// The most splits of a tree.
const MOST_SPLITS: u64 = 4_999;

// Opening cash of at most so many cents, and no need.
fn cash_book(alloc: Global, cents: u64) -> Result<Book, NoMemory>
    requires { cents ≤ AMOUNT_LIMIT_OF }
    ensures { IfOk result (λ book. book.lines ≡ record { kind = kind.Cash; step = 1; least = 1; most = cents } ∷ []) }
{
    let cash = Line {
        kind: LineKind::Cash,
        step: 1,
        least: 1,
        most: cents,
    };
    let lines = vec![in alloc; cash]?;
    Ok(Book::make(
        Day::new(20_103),
        Vec::new(alloc),
        lines,
        ClosedDays::none(alloc),
    ))
}

// The ranges of the root, which are tight.
fn root_ranges(alloc: Global, book: &Book) -> Result<Ranges, NoMemory>
    ensures way { IfOk result (λ ranges. ranges ≡ ranges_at book.now []) }
    ensures tight { IfOk result (λ ranges. AreTight book.now ranges) }
{
    range_laws();
    let _lines = book.line_count();
    Ranges::root(alloc, book)
}

// Splits a node in hand at a number of cents, goes to the ranges of one side, and takes its child in hand.
fn go_down(
    pool: &mut Pool,
    book: &Book,
    ranges: &mut Ranges,
    node: NodeId,
    at: u64,
    right: bool,
) -> Option<NodeId>
    requires hand { IsInHand pool.old.states node.0 }
    requires way { (way : List Step) × IsWay pool.old.states node.0 way × AreProper book.now way × (ranges.old ≡ ranges_at book.now way) }
    requires tight { AreTight book.now ranges.old }
    ensures hand { IfSome result (λ child. IsInHand pool.new.states child.0) }
    ensures way { IfSome result (λ child. (way : List Step) × IsWay pool.new.states child.0 way × AreProper book.now way × (ranges.new ≡ ranges_at book.now way)) }
    ensures tight { IfSome result (λ _. AreTight book.now ranges.new) }
{
    let cash = Part::Line(0);
    if !ranges.proper(cash, at) {
        return None;
    }
    let keys = (i128::from(right), i128::from(!right));
    let Ok(made) = pool.split(node, 0, at, keys.0, keys.1) else {
        return None;
    };
    let child = if right { made.1 } else { made.0 };
    ranges.narrow(book, cash, at, right);
    let next = pool.pop_least()?;
    if next == child { Some(next) } else { None }
}

// Where the last cent but one on a side is split off.
fn next_split(ranges: &Ranges, right: bool) -> u64 {
    match ranges.intervals().first() {
        Some(interval) if right => interval.low,
        Some(interval) => interval.high.saturating_sub(1),
        None => 0,
    }
}

// The ranges that a pool tells of its deepest node, where so many splits each take a cent off, and each is on one side of the one
// before; None where so many can't.
fn deepest(
    alloc: Global,
    book: &Book,
    right: bool,
    splits: u64,
) -> Result<Option<Ranges>, NoMemory> {
    let mut pool = Pool::make(alloc, 9_999, 0)?;
    let root = root_ranges(alloc, book)?;
    let mut ranges = root_ranges(alloc, book)?;
    let mut found = root_ranges(alloc, book)?;
    let mut node = pool.pop_least();
    for _ in 0..splits {
        let Some(parent) = node else {
            return Ok(None);
        };
        let at = next_split(&ranges, right);
        node = go_down(&mut pool, book, &mut ranges, parent, at, right);
    }
    let Some(node) = node else {
        return Ok(None);
    };
    pool.box_of(node, book, &root, &mut found);
    Ok(Some(found))
}

/// The interval of opening cash, of at most so many cents, at the deepest node of a tree of so many splits, which is on one side of
/// each, and of which each takes a cent off.
pub(crate) fn deep(alloc: Global, cents: &str, side: &str, splits: &str) -> Result<String, Unread> {
    let cents = up_to(cents, AMOUNT_LIMIT)?;
    let splits = up_to(splits, MOST_SPLITS)?;
    let book = cash_book(alloc, cents).map_err(|_| Unread::NoMemory)?;
    let found = deepest(alloc, &book, side == "right", splits);
    let found = found.map_err(|_| Unread::NoMemory)?;
    match found.as_ref().and_then(|ranges| ranges.intervals().first()) {
        Some(interval) => Ok(format!(in alloc; "{} {}", interval.low, interval.high)?),
        None => Ok(String::from_str(alloc, "none")?),
    }
}
