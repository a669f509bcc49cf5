//! The days that each need date prices.
ghost use Rattle.std.specs.Prelude.{All, ◌≡◌, ◌⊎◌, ◌<◌, ◌≤◌, ℕ, [], ◌∷◌, ◌++◌, IfOk, OnOk, length, map, slice_index_or};
ghost use Rattle.fixed_powers.specs.DiscountPowers.{one};
ghost use Rattle.dual_bound.specs.Changes.{IsListedAt};
ghost use Rattle.dual_bound.specs.Columns.{AreDateDays, IsPriced, worth_on};
ghost use Rattle.dual_bound.specs.declared.date_days.DateDays.{DateDays, DateDays as DateDaysOf};

use crate::worth::{PricedDay, Worth, price_days_at};
use escrow_desk::NoMemory;
use proof_tree::{Leaf, PRICE_SCALE};
use std::alloc::Global;

/// The days whose first need date is a given one.
#[derive(Drop)]
pub(crate) struct DateDays {
    /// The places of the days.
    pub places: Vec<usize>,
}

impl DateDays {
    // Puts the place of a day behind the others.
    fn add(&mut self, place: usize) -> Result<(), NoMemory>
        ensures { OnOk result (self.new.places.items ≡ self.old.places.items ++ place ∷ []) }
    {
        self.places.push(place)?;
        Ok(())
    }
}

// How many days each of so many need dates prices. It shows how much room to take, and nothing rests on it.
fn counts_by_date(alloc: Global, dates: u16, days: &[PricedDay]) -> Result<Vec<usize>, NoMemory> {
    let mut counts = vec![in alloc; 0usize; usize::from(dates)]?;
    for day in days {
        if day.need < counts.len() {
            counts[day.need] = counts[day.need].saturating_add(1);
        }
    }
    Ok(counts)
}

// No days, for each of so many need dates, in room for as many as are counted.
fn no_days(alloc: Global, dates: u16, counts: &[usize]) -> Result<Vec<DateDays>, NoMemory>
    ensures count { IfOk result (λ lists. length lists.items ≡ dates) }
    ensures empty { IfOk result (λ lists. All (λ (list : DateDays). list.places.items ≡ []) lists.items) }
{
    let mut lists = Vec::new(alloc);
    for date in 0..dates {
        let count = counts.get(usize::from(date)).copied().unwrap_or(0);
        lists.push(DateDays {
            places: Vec::with_capacity(alloc, count)?,
        })?;
    }
    Ok(lists)
}

// Puts the place of a day to its need date, where there is one.
fn list_day(lists: &mut [DateDays], need: usize, place: usize) -> Result<(), NoMemory>
    ensures own { OnOk result ((e : DateDays) → need < length lists.old → (slice_index_or lists.new need e).places.items ≡ (slice_index_or lists.old need e).places.items ++ place ∷ []) }
    ensures others { OnOk result ((date : ℕ) (e : DateDays) → ¬ (date ≡ need) → slice_index_or lists.new date e ≡ slice_index_or lists.old date e) }
{
    if need >= lists.len() {
        return Ok(());
    }
    lists[need].add(place)
}

/// The days of each of so many need dates. A day behind the last need date is in no list.
///
/// # Errors
///
/// Where memory ran out.
pub(crate) fn days_by_date(
    alloc: Global,
    dates: u16,
    days: &[PricedDay],
) -> Result<Vec<DateDays>, NoMemory>
    ensures { IfOk result (λ lists. AreDateDays dates days.now lists.items) }
{
    let counts = counts_by_date(alloc, dates, days)?;
    let mut lists = no_days(alloc, dates, counts.as_slice())?;
    for place in 0..days.len() {
        list_day(lists.as_mut_slice(), days[place].need, place)?;
    }
    Ok(lists)
}

/// Prices the days of some need dates at a leaf, which keeps its limits. Each other day is priced at it already.
pub(crate) fn price_dates(
    leaf: &Leaf,
    dates: &[usize],
    lists: &[DateDays],
    days: &[PricedDay],
    worths: &mut [Worth],
)
    requires leaf { leaf.now.mu ≤ PRICE_SCALE }
    requires powers { All (λ priced. priced.power ≤ one) days.now }
    requires same { length worths.old ≡ length days.now }
    requires dates { All (λ date. date < length lists.now) dates.now }
    requires lists { All (λ (list : DateDaysOf). All (λ place. place < length days.now) list.places.items) lists.now }
    requires others { (place : ℕ) → place < length days.now → IsPriced leaf.now days.now worths.old place ⊎ IsListedAt dates.now lists.now place }
    ensures { worths.new ≡ map (worth_on leaf.now) days.now }
{
    for date in dates {
        price_days_at(leaf, days, lists[*date].places.as_slice(), worths);
    }
}
