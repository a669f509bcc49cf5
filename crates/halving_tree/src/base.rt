//! The leaf of the bootstrapped prices, and the leaf that shows that needs aren't reached.
ghost use Rattle.std.specs.Prelude.{◌≡◌, if◌then◌else◌, int_le, IfOk, length};
ghost use Rattle.proof_tree.specs.Tree.{IsLeaf};
ghost use Rattle.halving_tree.specs.Base.{base_leaf as base_leaf_of, reach_leaf as reach_leaf_of};

use backward_build::bootstrap;
use escrow_desk::NoMemory;
use escrow_units::Day;
use offer_book::Book;
use proof_tree::{Leaf, PRICE_SCALE};
use std::alloc::Global;

/// The base leaf of a book, which weighs the cost: that of the bootstrapped prices, and where there are none, that of 0 for each
/// need date.
///
/// # Errors
///
/// Where memory ran out.
pub fn base_leaf(alloc: Global, book: &Book) -> Result<Leaf, NoMemory>
    ensures value { IfOk result (λ leaf. leaf ≡ base_leaf_of book.now) }
    ensures leaf { IfOk result (IsLeaf (length book.now.needs)) }
{
    match bootstrap(alloc, book)? {
        Some(leaf) => Ok(leaf),
        None => Leaf::of_zeros(alloc, true, book.need_count()),
    }
}

// The price of a need date for the needs up to a day.
fn reach_price(day: Day, need: Day) -> u64
    ensures { result ≡ (if int_le need day then PRICE_SCALE else 0) }
{
    if need <= day { PRICE_SCALE } else { 0 }
}

/// Makes of a leaf, with as many prices as there are need dates, the one that weighs the needs up to a day alone. Its bound above 0
/// shows that no portfolio of the ranges meets them. It takes no memory.
pub fn put_reach(book: &Book, day: Day, leaf: &mut Leaf)
    requires { length leaf.old.prices ≡ length book.now.needs }
    ensures value { leaf.new ≡ reach_leaf_of book.now.needs day }
    ensures leaf { IsLeaf (length book.now.needs) leaf.new }
{
    leaf.rho = 0;
    leaf.mu = 0;
    leaf.weights.clear();
    for place in 0..book.need_count() {
        let need = book.need(place);
        leaf.prices.put(place, reach_price(day, need.day));
    }
}

/// The leaf that weighs the needs up to a day alone, as [`put_reach`] makes it.
///
/// # Errors
///
/// Where memory ran out.
pub fn reach_leaf(alloc: Global, book: &Book, day: Day) -> Result<Leaf, NoMemory>
    ensures value { IfOk result (λ leaf. leaf ≡ reach_leaf_of book.now.needs day) }
    ensures leaf { IfOk result (IsLeaf (length book.now.needs)) }
{
    let mut leaf = Leaf::of_zeros(alloc, false, book.need_count())?;
    put_reach(book, day, &mut leaf);
    Ok(leaf)
}
