//! Powers of the discount factor of one index day, and their roots.

ghost use Rattle.std.specs.Prelude.{◌+◌, ◌≤◌, IfOk};

use escrow_units::{GREATEST_INDEX, GREATEST_YIELD, YieldUnits};
use figure_sheets::{Unread, up_to};
use fixed_powers::{Powers, Side, root_high, root_low};
use std::alloc::Global;

// A yield that a table of powers may have.
fn units(word: &str) -> Result<YieldUnits, Unread>
    ensures { IfOk result (λ units. units.0 ≤ GREATEST_YIELD + 1) }
{
    Ok(YieldUnits(up_to(word, GREATEST_YIELD + 1)?))
}

// The side to which powers are rounded.
fn side(word: &str) -> Result<Side, Unread> {
    match word.as_bytes() {
        b"Low" => Ok(Side::Low),
        b"High" => Ok(Side::High),
        _ => Err(Unread::Argument),
    }
}

// The powers of a yield on some days.
fn powers_on(alloc: Global, by: &str, at: &str, days: &[&str]) -> Result<String, Unread> {
    let Ok(powers) = Powers::make(alloc, units(at)?, side(by)?, GREATEST_INDEX) else {
        return Err(Unread::NoMemory);
    };
    let mut text = String::new(alloc);
    for day in days {
        let day = up_to(day, u64::from(GREATEST_INDEX))? as u32;
        if !text.is_empty() {
            text.push(' ')?;
        }
        text.push_str(format!(in alloc; "{}", powers.power(day))?.as_str())?;
    }
    Ok(text)
}

/// What a call on powers comes to, if it is one.
pub(crate) fn answer(alloc: Global, name: &str, arguments: &[&str]) -> Result<String, Unread> {
    match (name.as_bytes(), arguments) {
        (b"root", [by, at]) => {
            let root = match side(by)? {
                Side::Low => root_low(units(at)?),
                Side::High => root_high(units(at)?),
            };
            Ok(format!(in alloc; "{root}")?)
        }
        (b"powers", [by, at, days @ ..]) => powers_on(alloc, by, at, days),
        _ => Err(Unread::NoCall),
    }
}
