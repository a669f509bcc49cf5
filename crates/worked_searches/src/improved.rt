//! Better leaves.
ghost use Rattle.std.specs.Prelude.{IfOk, length};
ghost use Rattle.fixed_powers.specs.DiscountPowers.{IsLowTable};

use case_file::Case;
use dual_bound::bound;
use dual_tune::{Tuner, improve};
use escrow_desk::NoMemory;
use escrow_units::{GREATEST_INDEX, GREATEST_YIELD, YieldUnits};
use figure_sheets::Unread;
use fixed_powers::{Powers, Side};
use node_ranges::{Ranges, least_cost};
use offer_book::{Book, COEFFICIENT_SCALE};
use proof_tree::Leaf;
use std::alloc::Global;

// A cent, in units of least costs.
const CENT: i128 = COEFFICIENT_SCALE as i128;

// The powers of the greatest yield below the limit.
fn powers_of(alloc: Global, case: &Case) -> Result<Powers, Unread>
    ensures { IfOk result IsLowTable }
{
    let units = case.limit.0.saturating_sub(1);
    if units > GREATEST_YIELD {
        return Err(Unread::Part);
    }
    match Powers::make(alloc, YieldUnits(units), Side::Low, GREATEST_INDEX) {
        Ok(powers) => Ok(powers),
        Err(_) => Err(Unread::NoMemory),
    }
}

// What the leaf of zeros shows, improved at the root.
fn improved_leaf(alloc: Global, book: &Book, powers: &Powers, whole: bool) -> Result<i128, NoMemory>
    requires { IsLowTable powers.now }
{
    let ranges = Ranges::root(alloc, book)?;
    let zeros = Leaf::of_zeros(alloc, whole, book.need_count())?;
    let leaf = improve(alloc, book, powers, &ranges, &zeros)?;
    Ok(least_cost(leaf.rho, bound(book, powers, &ranges, &leaf)))
}

// The same by a tuner that starts from the leaf and the basis that it had before, where it stands.
fn tuned_leaf(alloc: Global, book: &Book, powers: &Powers, whole: bool) -> Result<i128, NoMemory>
    requires { IsLowTable powers.now }
{
    let ranges = Ranges::root(alloc, book)?;
    let zeros = Leaf::of_zeros(alloc, whole, book.need_count())?;
    let mut start = Leaf::of_zeros(alloc, whole, book.need_count())?;
    let mut leaf = Leaf::of_zeros(alloc, whole, book.need_count())?;
    let mut tuner = Tuner::make(alloc, book, powers)?;
    tuner.tune(&ranges, &zeros, None, None, &mut start);
    let basis = tuner.basis(alloc)?;
    tuner.stand(&ranges, &basis);
    Ok(tuner.tune(&ranges, &zeros, Some(&start), Some(&basis), &mut leaf))
}

/// The whole cents of the least cost that the leaf of zeros shows, improved at the root, where the cost counts; else whether its bound
/// is above 0.
pub(crate) fn improved(alloc: Global, case: &Case, whole: &str) -> Result<String, Unread> {
    let whole = whole == "1";
    let powers = powers_of(alloc, case)?;
    let improved = improved_leaf(alloc, &case.book, &powers, whole);
    let improved = improved.map_err(|_| Unread::NoMemory)?;
    if !whole {
        let side = if improved > 0 {
            "above 0"
        } else {
            "not above 0"
        };
        return Ok(String::from_str(alloc, side)?);
    }
    let tuned = tuned_leaf(alloc, &case.book, &powers, whole);
    let tuned = tuned.map_err(|_| Unread::NoMemory)?;
    if tuned / CENT != improved / CENT {
        return Ok(format!(in alloc; "{} by a tuner", tuned / CENT)?);
    }
    Ok(format!(in alloc; "{}", improved / CENT)?)
}
