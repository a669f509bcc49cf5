//! The arguments of a call, by their words. Each is refused by `Argument`, where it isn't what it has to be.

ghost use Rattle.std.specs.Prelude.{◌≤◌, IfOk};
ghost use Rattle.escrow_units.specs.Calendar.{IsBaseDay};
ghost use Rattle.escrow_units.specs.DateText.{IsFieldDay};
ghost use Rattle.escrow_units.specs.SlgsTerms.{IsSettlement};

use crate::unread::Unread;
use escrow_units::{Cents, Day, Flow, GREATEST_RATE, Rate, is_settlement, read_day, read_rate};
use std::alloc::Global;

/// A number of 64 bits.
pub fn number_of(word: &str) -> Result<u64, Unread> {
    match word.parse() {
        Ok(number) => Ok(number),
        Err(_) => Err(Unread::Argument),
    }
}

/// A day of the years 1900 to 2199.
pub fn day(word: &str) -> Result<Day, Unread>
    ensures { IfOk result IsFieldDay }
{
    match read_day(word.as_bytes()) {
        Ok(day) => Ok(day),
        Err(_) => Err(Unread::Argument),
    }
}

/// A day of the years 2000 to 2190.
pub fn base_day(word: &str) -> Result<Day, Unread>
    ensures { IfOk result IsBaseDay }
{
    let day = day(word)?;
    if day.number() < 10_957 || day.number() > 80_718 {
        return Err(Unread::Argument);
    }
    Ok(day)
}

/// A settlement day.
pub fn settlement(word: &str) -> Result<Day, Unread>
    ensures { IfOk result IsSettlement }
{
    let day = day(word)?;
    if !is_settlement(day) {
        return Err(Unread::Argument);
    }
    Ok(day)
}

/// A number up to the most that a call takes.
pub fn up_to(word: &str, most: u64) -> Result<u64, Unread>
    ensures { IfOk result (λ number. number ≤ most) }
{
    let number = number_of(word)?;
    if number > most {
        return Err(Unread::Argument);
    }
    Ok(number)
}

/// An amount up to the most that a call takes.
pub fn cents(word: &str, most: u64) -> Result<Cents, Unread>
    ensures { IfOk result (λ cents. cents.0 ≤ most) }
{
    Ok(Cents(up_to(word, most)?))
}

/// A rate in percent.
pub fn rate(word: &str) -> Result<Rate, Unread>
    ensures { IfOk result (λ rate. rate.0 ≤ GREATEST_RATE) }
{
    match read_rate(word.as_bytes()) {
        Ok(rate) => Ok(rate),
        Err(_) => Err(Unread::Argument),
    }
}

/// Flows, each by its day and its cents.
pub fn flows_of(alloc: Global, words: &[&str]) -> Result<Vec<Flow>, Unread> {
    let mut flows = Vec::new(alloc);
    for pair in words.chunks(2) {
        let [on, cents] = pair else {
            return Err(Unread::Argument);
        };
        flows.push(Flow {
            day: day(on)?,
            cents: Cents(number_of(cents)?),
        })?;
    }
    Ok(flows)
}

/// An entry of a list, which its number from 1 names.
pub fn entry<'e, T>(entries: &'e [T], number: &str) -> Result<&'e T, Unread> {
    let place = number_of(number)?;
    if place == 0 || place > entries.len() as u64 {
        return Err(Unread::Argument);
    }
    Ok(&entries[place as usize - 1])
}
