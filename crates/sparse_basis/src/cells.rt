//! Lists with a place for each line, date, row or column, and sums of products over them.
//!
//! A place that isn't there stops the solve: nothing stands for what would be there.
ghost use Rattle.std.specs.Prelude.{◌≤◌, ◌^◌, IfOk, length, unsigned_abs};

use crate::number::{Amount, Price};
use crate::segments::{Segment, run_of};
use crate::sparse::{Entry, MOST_ENTRIES, Stop};

/// What is at a place. It stops where there is none.
pub fn read<T: Copy>(cells: &[T], place: usize) -> Result<T, Stop> {
    match cells.get(place) {
        Some(cell) => Ok(*cell),
        None => Err(Stop::WrongPlace),
    }
}

/// Puts something at a place. It stops where there is none.
pub fn put<T: Copy>(cells: &mut [T], place: usize, item: T) -> Result<(), Stop> {
    match cells.get_mut(place) {
        Some(cell) => {
            *cell = item;
            Ok(())
        }
        None => Err(Stop::WrongPlace),
    }
}

/// Adds to a list that has room for it. It stops where it has none.
pub fn push_within<T: Copy>(list: &mut Vec<T>, item: T) -> Result<(), Stop> {
    if list.capacity() <= list.len() {
        return Err(Stop::NoRoom);
    }
    match list.push(item) {
        Ok(()) => Ok(()),
        Err(_) => Err(Stop::NoRoom),
    }
}

/// The sum of the entries of a column, each times the price at its place, with twice as many places. It is clamped nowhere: no
/// column has so many entries.
pub fn product(column: &[Entry], prices: &[Price]) -> Result<i128, Stop>
    requires { length column.now ≤ MOST_ENTRIES }
    ensures { IfOk result (λ sum. unsigned_abs sum ≤ 2 ^ 125) }
{
    let mut sum = 0i128;
    for entry in column {
        let price = read(prices, usize::from(entry.place))?;
        sum += entry.value.times(price);
    }
    Ok(sum)
}

// The price of the run of a date; 0 where that has no price of its own.
fn price_on(prices: &[Price], runs: &[Segment], date: u16) -> Result<Price, Stop> {
    match run_of(runs, usize::from(date))? {
        Segment::Free(run) => read(prices, usize::from(run)),
        Segment::Head | Segment::Tail => Ok(Price::zero()),
    }
}

/// The same sum, of payments by their dates, with a price for each run of dates.
pub(crate) fn product_in_runs(
    pays: &[Entry],
    runs: &[Segment],
    prices: &[Price],
) -> Result<i128, Stop>
    requires { length pays.now ≤ MOST_ENTRIES }
    ensures { IfOk result (λ sum. unsigned_abs sum ≤ 2 ^ 125) }
{
    let mut sum = 0i128;
    for entry in pays {
        let price = price_on(prices, runs, entry.place)?;
        sum += entry.value.times(price);
    }
    Ok(sum)
}

// Takes what an amount pays by a coefficient off the amount of a place.
fn subtract_entry(
    amounts: &mut [Amount],
    place: u16,
    coefficient: Price,
    amount: Amount,
) -> Result<(), Stop> {
    match amounts.get_mut(usize::from(place)) {
        Some(left) => {
            *left = left.less_paid(coefficient, amount);
            Ok(())
        }
        None => Err(Stop::WrongPlace),
    }
}

/// Takes what an amount of a column pays off amounts.
pub(crate) fn subtract(
    amounts: &mut [Amount],
    column: &[Entry],
    amount: Amount,
) -> Result<(), Stop> {
    if amount.is_zero() {
        return Ok(());
    }
    for entry in column {
        subtract_entry(amounts, entry.place, entry.value, amount)?;
    }
    Ok(())
}

/// Takes what an amount pays by payments by their dates off the amounts of the runs of dates.
pub(crate) fn subtract_in_runs(
    amounts: &mut [Amount],
    pays: &[Entry],
    runs: &[Segment],
    amount: Amount,
) -> Result<(), Stop> {
    if amount.is_zero() {
        return Ok(());
    }
    for entry in pays {
        if let Segment::Free(run) = run_of(runs, usize::from(entry.place))? {
            subtract_entry(amounts, run, entry.value, amount)?;
        }
    }
    Ok(())
}
