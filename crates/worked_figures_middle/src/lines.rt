//! The lines of a book.

ghost use Rattle.std.specs.Prelude.{◌<◌, ◌≤◌, IfOk, length, slice_index_or};
ghost use Rattle.offer_book.specs.declared.line.Line.{Line};

use cash_table::{line_receipts, out_of_reach};
use escrow_units::{Flow, SlgsKind, print_day, print_rate};
use figure_sheets::{Unread, number_of, shown_day, shown_flows, up_to};
use offer_book::{Book, Line, LineKind};
use std::alloc::{AllocError, Global};

// A line of a book, by its number.
fn line_in(book: &Book, word: &str) -> Result<u16, Unread>
    ensures { IfOk result (λ line. line < length book.now.lines) }
{
    let line = up_to(word, u64::from(u16::MAX))? as u16;
    if line >= book.line_count() {
        return Err(Unread::Argument);
    }
    Ok(line)
}

// What a line offers, and when it first pays.
fn kind_shown(alloc: Global, line: &Line) -> Result<String, AllocError> {
    let (name, maturity, rate, first) = match line.kind {
        LineKind::Cash => return String::from_str(alloc, "cash"),
        LineKind::Security(slgs) => (slgs_name(slgs.kind), slgs.maturity, slgs.rate, slgs.first),
        LineKind::Market(note) => {
            let (maturity, coupon) = (print_day(note.maturity), print_rate(note.coupon));
            return format!(in alloc; "market {} {}", maturity.as_str(), coupon.as_str());
        }
    };
    let (maturity, rate, first) = (print_day(maturity), print_rate(rate), print_day(first));
    format!(in alloc;
        "{name} {} {} {}",
        maturity.as_str(),
        rate.as_str(),
        first.as_str()
    )
}

// What a kind is called.
fn slgs_name(kind: SlgsKind) -> &'static str {
    match kind {
        SlgsKind::Certificate => "certificate",
        SlgsKind::Note => "note",
        SlgsKind::Bond => "bond",
    }
}

// How many payments units of a line have, and the last of them.
fn last_shown(alloc: Global, count: usize, last: Option<&Flow>) -> Result<String, AllocError> {
    match last {
        Some(flow) => format!(in alloc;
            "{count} {} {}",
            print_day(flow.day).as_str(),
            flow.cents.0
        ),
        None => format!(in alloc; "{count}"),
    }
}

// What units of a line cost, pay, or pay by each need date.
fn units_answer(
    alloc: Global,
    book: &Book,
    name: &str,
    line: &str,
    units: &str,
) -> Result<String, Unread> {
    let line = line_in(book, line)?;
    let units = number_of(units)?;
    if units > book.line(line).most {
        return Err(Unread::Argument);
    }
    match name.as_bytes() {
        b"line_cost" => Ok(format!(in alloc; "{}", book.line_cost(line, units).0)?),
        b"line_receipts" => Ok(receipts_shown(alloc, book, &line_receipts(book, line, units))?),
        b"line_payments" => {
            let flows = book.line_payments(line, units);
            Ok(shown_flows(alloc, flows.as_slice())?)
        }
        _ => {
            let flows = book.line_payments(line, units);
            Ok(last_shown(alloc, flows.len(), flows.as_slice().last())?)
        }
    }
}

/// What comes in by each need date, behind the one before it.
pub(crate) fn receipts_shown(
    alloc: Global,
    book: &Book,
    receipts: &[u64],
) -> Result<String, AllocError> {
    let mut text = String::new(alloc);
    for cents in receipts.iter().take(usize::from(book.need_count())) {
        if !text.is_empty() {
            text.push(' ')?;
        }
        text.push_str(format!(in alloc; "{cents}")?.as_str())?;
    }
    Ok(text)
}

// What one unit of a line costs, scaled: at least, at most, and how much more the rounding may take.
fn cost_coefficients(alloc: Global, book: &Book, line: u16) -> Result<String, AllocError>
    requires { line < length book.now.lines }
{
    let all = book.coefficients(line);
    format!(in alloc; "{} {} {}", all.cost_low, all.cost_high, all.cost_slack)
}

// What one unit of a line pays last, scaled: its day, and as `cost_coefficients`.
fn last_coefficients(alloc: Global, book: &Book, line: u16) -> Result<String, AllocError>
    requires { line < length book.now.lines }
{
    let all = book.coefficients(line);
    match all.pays.as_slice().last() {
        Some(pay) => {
            let day = print_day(pay.day);
            format!(in alloc; "{} {} {} {}", day.as_str(), pay.low, pay.high, pay.slack)
        }
        None => String::from_str(alloc, "none"),
    }
}

// What a call on a line of a book comes to, if it is one.
fn line_answer(alloc: Global, book: &Book, name: &str, word: &str) -> Result<String, Unread> {
    let line = line_in(book, word)?;
    let text = match name.as_bytes() {
        b"line" => kind_shown(alloc, book.line(line)),
        b"line_units" => {
            let line = book.line(line);
            format!(in alloc; "{} {} {}", line.step, line.least, line.most)
        }
        b"coefficients" => cost_coefficients(alloc, book, line),
        _ => last_coefficients(alloc, book, line),
    };
    Ok(text?)
}

/// What a call on the lines of a book comes to, if it is one.
pub(crate) fn answer(
    alloc: Global,
    book: &Book,
    name: &str,
    arguments: &[&str],
) -> Result<String, Unread> {
    match (name.as_bytes(), arguments) {
        (b"lines", []) => Ok(format!(in alloc; "{}", book.line_count())?),
        (b"out_of_reach", []) => Ok(shown_day(alloc, out_of_reach(book))?),
        (b"line" | b"line_units" | b"coefficients" | b"last_coefficients", [line]) => {
            line_answer(alloc, book, name, line)
        }
        (b"line_cost" | b"line_payments" | b"last_payment" | b"line_receipts", [line, units]) => {
            units_answer(alloc, book, name, line, units)
        }
        _ => Err(Unread::NoCall),
    }
}
