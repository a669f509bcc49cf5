//! Requests for securities, by the rules of subscriptions.

use escrow_units::{AskedRate, Day, Rate, SlgsKind, print_day};
use figure_sheets::{Unread, day, rate, settlement};
use slgs_rules::classify;
use std::alloc::Global;

// The rate that is asked for: one in percent, or the greatest.
fn asked(word: &str) -> Result<AskedRate, Unread> {
    if word == "max" {
        return Ok(AskedRate::Max);
    }
    Ok(AskedRate::At(rate(word)?))
}

// A day, where one is named.
fn named_day(word: &str) -> Result<Option<Day>, Unread> {
    if word == "none" {
        return Ok(None);
    }
    Ok(Some(day(word)?))
}

// The rate of the daily table, where it has one.
fn table_rate(word: &str) -> Result<Option<Rate>, Unread> {
    if word == "none" {
        return Ok(None);
    }
    Ok(Some(rate(word)?))
}

// What a kind is called.
fn kind_name(kind: SlgsKind) -> &'static str {
    match kind {
        SlgsKind::Certificate => "certificate",
        SlgsKind::Note => "note",
        SlgsKind::Bond => "bond",
    }
}

/// What a call on requests comes to, if it is one: the kind of the security and its first payment date, or the fault.
pub(crate) fn answer(alloc: Global, name: &str, arguments: &[&str]) -> Result<String, Unread> {
    let (b"classify", [settle, maturity, at, first, most]) = (name.as_bytes(), arguments) else {
        return Err(Unread::NoCall);
    };
    let (settle, maturity) = (settlement(settle)?, day(maturity)?);
    match classify(
        settle,
        maturity,
        asked(at)?,
        named_day(first)?,
        table_rate(most)?,
    ) {
        Ok(slgs) => {
            let first = print_day(slgs.first);
            Ok(format!(in alloc; "{} {}", kind_name(slgs.kind), first.as_str())?)
        }
        Err(fault) => Ok(format!(in alloc; "{fault:?}")?),
    }
}
