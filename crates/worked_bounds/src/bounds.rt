//! Bounds of leaves, one after another.
ghost use Rattle.std.specs.Prelude.{◌≡◌, IfOk, length};
ghost use Rattle.fixed_powers.specs.DiscountPowers.{IsLowTable};
ghost use Rattle.node_ranges.specs.Ranges.{AreTight};
ghost use Rattle.proof_tree.specs.Tree.{IsLeaf};

use case_file::Case;
use dual_bound::{Columns, bound, priced_needs};
use escrow_units::{GREATEST_INDEX, GREATEST_YIELD, YieldUnits};
use figure_cases::{is_side, own_leaf, ranges_of};
use figure_sheets::Unread;
use fixed_powers::{Powers, Side};
use node_ranges::Ranges;
use offer_book::Book;
use proof_tree::Leaf;
use std::alloc::Global;

// The powers of the greatest yield below the limit.
fn powers_of(alloc: Global, case: &Case) -> Result<Powers, Unread>
    ensures { IfOk result IsLowTable }
{
    let units = case.limit.0.saturating_sub(1);
    if units > GREATEST_YIELD {
        return Err(Unread::Argument);
    }
    match Powers::make(alloc, YieldUnits(units), Side::Low, GREATEST_INDEX) {
        Ok(powers) => Ok(powers),
        Err(_) => Err(Unread::NoMemory),
    }
}

// The bound of a leaf that reckons each line anew, where the columns give the same: in each of two rooms, in one that isn't there,
// and from the leaf before.
fn bound_anew(
    columns: &mut Columns,
    powers: &Powers,
    book: &Book,
    ranges: &Ranges,
    leaf: &Leaf,
) -> Option<i128>
    requires own { columns.old.book ≡ book.now }
    requires powers { IsLowTable powers.now }
    requires leaf { IsLeaf (length book.now.needs) leaf.now }
    requires tight { AreTight book.now ranges.now }
    ensures { columns.new.book ≡ book.now }
{
    let anew = bound(book, powers, ranges, leaf);
    let first = columns.bound_near(1, ranges, leaf);
    let second = columns.bound_near(2, ranges, leaf);
    let third = columns.bound_near(0, ranges, leaf);
    let last = columns.bound(ranges, leaf);
    if anew == first && anew == second && anew == third && anew == last {
        Some(anew)
    } else {
        None
    }
}

// Tells the bound of a leaf, whose words stand behind the sides that lead to its ranges.
fn tell_bound(
    alloc: Global,
    columns: &mut Columns,
    powers: &Powers,
    book: &Book,
    words: &[&str],
    told: &mut String,
) -> Result<(), Unread>
    requires own { columns.old.book ≡ book.now }
    requires powers { IsLowTable powers.now }
    ensures { columns.new.book ≡ book.now }
{
    let mut sides = Vec::new(alloc);
    let mut weights = Vec::new(alloc);
    for word in words {
        if is_side(word) {
            sides.push(*word)?;
        } else {
            weights.push(*word)?;
        }
    }
    let ranges = ranges_of(alloc, book, sides.as_slice())?;
    let leaf = own_leaf(alloc, book, weights.as_slice())?;
    let bound = match bound_anew(columns, powers, book, &ranges, &leaf) {
        Some(bound) => format!(in alloc; "{bound}")?,
        None => String::from_str(alloc, "another one by columns")?,
    };
    told.push_str(bound.as_str())?;
    Ok(())
}

/// The bounds of leaves, which `;` parts, at the greatest yield below the limit: by the same columns, one leaf after another.
pub(crate) fn bounds(alloc: Global, case: &Case, words: &[&str]) -> Result<String, Unread> {
    let powers = powers_of(alloc, case)?;
    let Ok(mut columns) = Columns::make(alloc, &case.book, &powers) else {
        return Err(Unread::NoMemory);
    };
    columns.add_rooms(alloc, 2);
    let mut told = String::new(alloc);
    let mut own = Vec::new(alloc);
    for word in words {
        if *word == ";" {
            tell_bound(
                alloc,
                &mut columns,
                &powers,
                &case.book,
                own.as_slice(),
                &mut told,
            )?;
            told.push_str(" ; ")?;
            own.clear();
        } else {
            own.push(*word)?;
        }
    }
    tell_bound(
        alloc,
        &mut columns,
        &powers,
        &case.book,
        own.as_slice(),
        &mut told,
    )?;
    Ok(told)
}

/// What the needs are worth at the prices of a leaf.
pub(crate) fn needs(alloc: Global, case: &Case, words: &[&str]) -> Result<String, Unread> {
    let leaf = own_leaf(alloc, &case.book, words)?;
    let worth = priced_needs(case.book.needs(), leaf.prices.as_slice());
    Ok(format!(in alloc; "{worth}")?)
}
