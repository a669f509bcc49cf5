//! Days as text, and the days that are counted from them.

ghost use Rattle.std.specs.Prelude.{IfOk};
ghost use Rattle.escrow_units.specs.DayNumber.{IsDayNumber};

use escrow_units::{
    Day, StepRule, days_between, half_back, index360, is_settlement, print_day, read_day,
    series_around, years_after,
};
use figure_sheets::{Unread, base_day, bytes_of, day, settlement, shown_yes, up_to};
use std::alloc::Global;

// How the dates of a series are counted back.
fn rule(word: &str) -> Result<StepRule, Unread> {
    match word.as_bytes() {
        b"SameDay" => Ok(StepRule::SameDay),
        b"MonthEnd" => Ok(StepRule::MonthEnd),
        _ => Err(Unread::Argument),
    }
}

// A day by its number.
fn numbered(word: &str) -> Result<Day, Unread> {
    match word.parse::<i32>() {
        Ok(number) if -25_567 <= number && number <= 120_529 => Ok(Day::new(number)),
        _ => Err(Unread::Argument),
    }
}

// The number of the day that a text gives, or why it gives none.
fn read(alloc: Global, text: &str) -> Result<String, Unread> {
    match read_day(bytes_of(alloc, text)?.as_slice()) {
        Ok(day) => Ok(format!(in alloc; "{}", day.number())?),
        Err(fault) => Ok(format!(in alloc; "{fault:?}")?),
    }
}

// The dates of a series around a day: the one before, the next, and how many come after it.
fn around(alloc: Global, maturity: &str, by: &str, from: &str) -> Result<String, Unread> {
    let maturity = base_day(maturity)?;
    let from = day(from)?;
    if from >= maturity || maturity.number() > from.number() + 14_640 {
        return Err(Unread::Argument);
    }
    let dates = series_around(maturity, rule(by)?, from);
    let (previous, next) = (print_day(dates.previous), print_day(dates.next));
    Ok(format!(in alloc;
        "{} {} {}",
        previous.as_str(),
        next.as_str(),
        dates.after.len()
    )?)
}

// The days between two, and their places by 30/360.
fn between(alloc: Global, name: &str, settle: &str, other: &str) -> Result<String, Unread> {
    let settle = settlement(settle)?;
    let other = day(other)?;
    if other < settle || other > years_after(settle, 40) {
        return Err(Unread::Argument);
    }
    match name.as_bytes() {
        b"days_between" => Ok(format!(in alloc; "{}", days_between(settle, other))?),
        _ => Ok(format!(in alloc; "{}", index360(settle, other))?),
    }
}

// The day that a call comes to.
fn moved(name: &str, arguments: &[&str]) -> Result<Day, Unread> {
    match (name.as_bytes(), arguments) {
        (b"half_back", [maturity, steps, by]) => {
            let steps = up_to(steps, 84)? as u32;
            Ok(half_back(base_day(maturity)?, steps, rule(by)?))
        }
        (b"years_after", [from, years]) => {
            let years = up_to(years, 40)? as u32;
            Ok(years_after(base_day(from)?, years))
        }
        (b"print_day", [number]) => numbered(number),
        _ => Err(Unread::NoCall),
    }
}

/// What a call on days comes to, if it is one.
pub(crate) fn answer(alloc: Global, name: &str, arguments: &[&str]) -> Result<String, Unread> {
    match (name.as_bytes(), arguments) {
        (b"read_day", [text]) => read(alloc, text),
        (b"is_settlement", [word]) => { Ok(shown_yes(alloc, is_settlement(day(word)?))?) }
        (b"series_around", [maturity, by, from]) => around(alloc, maturity, by, from),
        (b"days_between" | b"index360", [settle, other]) => between(alloc, name, settle, other),
        _ => Ok(String::from_str(alloc, print_day(moved(name, arguments)?).as_str())?),
    }
}
