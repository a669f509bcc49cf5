//! What the calls of a sheet are about.

ghost use Rattle.std.specs.Prelude.{◌≡◌, All, true};
ghost use Rattle.escrow_units.specs.OpenDays.{IsBy2190};

use crate::notes::Prices;
use crate::rates::Rates;
use crate::{days, numbers, payments, powers, requests, yields};
use escrow_units::{ClosedDays, Day};
use figure_sheets::{Figures, Part, Unread, base_day, have_heads, lines_of, up_to};
use std::alloc::Global;

/// What the calls of a sheet are about, where it has parts.
#[derive(Drop)]
pub(crate) struct Subject {
    closed: ClosedDays,
    rates: Option<Rates>,
    prices: Option<Prices>,
}

// The days that a line of closed days gives: a date, or a date and how many days are closed from it on.
fn run_of(alloc: Global, line: &str) -> Result<Vec<Day>, Unread> {
    let (first, count) = line.split_once(' ').unwrap_or((line, "1"));
    let first = base_day(first)?;
    let mut days = Vec::new(alloc);
    for place in 0..up_to(count, 1_000)? {
        days.push(Day::new(first.number() + place as i32))?;
    }
    Ok(days)
}

// Whether a receipt of each of these days can be moved to an open day.
fn are_by_2190(days: &[Day]) -> bool
    ensures { result ≡ true → All IsBy2190 days.now }
{
    let last = Day::new(80_718);
    for day in days {
        if last < *day {
            return false;
        }
    }
    true
}

// The closed days of a part's lines, of which one may be `weekends`.
fn closed_days(alloc: Global, lines: &str) -> Result<ClosedDays, Unread> {
    let mut weekends = false;
    let mut days = Vec::new(alloc);
    for line in lines.lines() {
        if line == "weekends" {
            weekends = true;
        } else {
            days.extend_from_slice(run_of(alloc, line)?.as_slice())?;
        }
    }
    if !are_by_2190(days.as_slice()) {
        return Err(Unread::Part);
    }
    Ok(ClosedDays::new(alloc, weekends, days)?)
}

// Why a part can't be read, by why one of its words can't.
fn part_fault(why: Unread) -> Unread {
    match why {
        Unread::NoMemory => Unread::NoMemory,
        _ => Unread::Part,
    }
}

impl Figures for Subject {
    fn read(alloc: Global, parts: &[Part]) -> Result<Subject, Unread> {
        if !have_heads(parts, &["closed", "rates", "settle", "prices"]) {
            return Err(Unread::Part);
        }
        let closed = match lines_of(parts, "closed") {
            Some(lines) => closed_days(alloc, lines).map_err(part_fault)?,
            None => ClosedDays::none(alloc),
        };
        let rates = match lines_of(parts, "rates") {
            Some(lines) => Some(Rates::read(alloc, lines)?),
            None => None,
        };
        let prices = match (lines_of(parts, "settle"), lines_of(parts, "prices")) {
            (Some(settle), Some(lines)) => Some(Prices::read(alloc, settle, lines).map_err(
                part_fault,
            )?),
            (None, Some(_)) => return Err(Unread::NoPart),
            (_, None) => None,
        };
        Ok(Subject {
            closed,
            rates,
            prices,
        })
    }

    fn answer(&self, alloc: Global, words: &[&str]) -> Result<String, Unread> {
        let [name, arguments @ ..] = words else {
            return Err(Unread::NoCall);
        };
        match plain_answer(alloc, name, arguments) {
            Err(Unread::NoCall) => self.answer_about(alloc, name, arguments),
            answer => answer,
        }
    }
}

impl Subject {
    // What a call comes to that is about parts of the sheet.
    fn answer_about(
        &self,
        alloc: Global,
        name: &str,
        arguments: &[&str],
    ) -> Result<String, Unread> {
        if let Some(rates) = &self.rates {
            return rates.answer(alloc, name, arguments);
        }
        match (
            payments::answer(alloc, &self.closed, name, arguments),
            &self.prices,
        ) {
            (Err(Unread::NoCall), Some(prices)) => prices.answer(
                alloc,
                &self.closed,
                name,
                arguments,
            ),
            (answer, _) => answer,
        }
    }
}

// What a call comes to that has all it needs in its arguments.
fn plain_answer(alloc: Global, name: &str, arguments: &[&str]) -> Result<String, Unread> {
    match numbers::answer(alloc, name, arguments) {
        Err(Unread::NoCall) => {}
        answer => return answer,
    }
    match days::answer(alloc, name, arguments) {
        Err(Unread::NoCall) => {}
        answer => return answer,
    }
    match requests::answer(alloc, name, arguments) {
        Err(Unread::NoCall) => {}
        answer => return answer,
    }
    match powers::answer(alloc, name, arguments) {
        Err(Unread::NoCall) => yields::answer(alloc, name, arguments),
        answer => answer,
    }
}
