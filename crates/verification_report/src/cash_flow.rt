//! The lines of a report on the cash, day by day.

ghost use Rattle.std.specs.Prelude.{◌≡◌, ◌++◌, OnOk};
ghost use Rattle.verification_report.specs.Report.{cash_lines, date_line, idle_line};

use crate::text::push_word;
use cash_table::Balance;
use escrow_desk::NoMemory;
use escrow_units::{print_cents, print_day};

// Adds the line of a day: what is received, what is needed, and what is left.
fn push_date(text: &mut Vec<u8>, entry: &Balance) -> Result<(), NoMemory>
    ensures { OnOk result (text.new.items ≡ text.old.items ++ date_line entry.now) }
{
    text.extend_from_slice(b"date")?;
    push_word(text, print_day(entry.day).as_bytes())?;
    push_word(text, print_cents(entry.receipts).as_bytes())?;
    push_word(text, print_cents(entry.needs).as_bytes())?;
    push_word(text, print_cents(entry.balance).as_bytes())?;
    text.push(b'\n')?;
    Ok(())
}

// Adds the line of cash that lies idle until the next of the days that follow, unless there is none.
fn push_idle(text: &mut Vec<u8>, entry: &Balance, later: &[Balance]) -> Result<(), NoMemory>
    ensures { OnOk result (text.new.items ≡ text.old.items ++ idle_line entry.now later.now) }
{
    let [next, ..] = later else {
        return Ok(());
    };
    if entry.balance.0 > 0 {
        text.extend_from_slice(b"idle")?;
        push_word(text, print_day(entry.day).as_bytes())?;
        push_word(text, print_day(next.day).as_bytes())?;
        push_word(text, print_cents(entry.balance).as_bytes())?;
        text.push(b'\n')?;
    }
    Ok(())
}

/// Adds the lines of the cash flow, with what lies idle from one day to the next.
pub(crate) fn push_cash_flow(text: &mut Vec<u8>, entries: &[Balance]) -> Result<(), NoMemory>
    ensures { OnOk result (text.new.items ≡ text.old.items ++ cash_lines entries.now) }
{
    for place in 0..entries.len() {
        push_date(text, &entries[place])?;
        push_idle(text, &entries[place], &entries[place + 1..])?;
    }
    Ok(())
}
