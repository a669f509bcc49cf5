//! Leaves and their prices.

use crate::arguments::numbers_of;
use figure_cases::leaf_text;
use figure_sheets::{Unread, number_of};
use proof_tree::{Leaf, PRICE_SCALE, Prices, Weights};
use std::alloc::Global;

/// A leaf of zeros for so many need dates.
pub(crate) fn zeros(alloc: Global, whole: &str, dates: &str) -> Result<String, Unread> {
    let dates = dates.parse().map_err(|_| Unread::Argument)?;
    let leaf = Leaf::of_zeros(alloc, whole == "1", dates).map_err(|_| Unread::NoMemory)?;
    Ok(leaf_text(alloc, &leaf)?)
}

/// Prices, of which the one at a place, counted from 0, is put.
pub(crate) fn put(
    alloc: Global,
    place: &str,
    price: &str,
    prices: &[&str],
) -> Result<String, Unread> {
    let place: u16 = place.parse().map_err(|_| Unread::Argument)?;
    let mut prices = Prices::new(numbers_of(alloc, prices)?);
    if prices.as_slice().len() <= usize::from(place) {
        return Err(Unread::Argument);
    }
    prices.put(place, number_of(price)?);
    let leaf = Leaf {
        rho: PRICE_SCALE,
        mu: 0,
        prices,
        weights: Weights::none(alloc),
    };
    Ok(leaf_text(alloc, &leaf)?)
}
