//! The lines of a report on what is bought, and what it pays.

ghost use Rattle.std.specs.Prelude.{◌≡◌, ◌≤◌, ◌++◌, drop, OnOk};
ghost use Rattle.std.specs.List.{flat_map};
ghost use Rattle.escrow_units.specs.SlgsTerms.{IsSettlement};
ghost use Rattle.offer_book.specs.Book.{IsLine};
ghost use Rattle.offer_book.specs.Portfolio.{IsPermitted};
ghost use Rattle.offer_book.specs.declared.payment_days.PaymentDays.{PaymentDays};
ghost use Rattle.verification_report.specs.Report.{bought_text, buy_line, kind_text, of_bought, pay_line, pay_lines, slgs_word as slgs_word_of};

use crate::text::{push_line, push_number, push_word};
use cash_table::Plan;
use escrow_desk::NoMemory;
use escrow_units::{Cents, Flow, SlgsKind, print_cents, print_day, print_rate};
use offer_book::{Book, Line, LineKind, PaymentDays};

// The word of a kind of SLGS securities.
fn slgs_word(kind: SlgsKind) -> &'static [u8]
    ensures { result.now ≡ slgs_word_of kind }
{
    match kind {
        SlgsKind::Certificate => b"certificate",
        SlgsKind::Note => b"note",
        SlgsKind::Bond => b"bond",
    }
}

// Adds what a line offers: its kind, its maturity and its rate.
fn push_kind(text: &mut Vec<u8>, kind: LineKind) -> Result<(), NoMemory>
    ensures { OnOk result (text.new.items ≡ text.old.items ++ kind_text kind) }
{
    match kind {
        LineKind::Cash => text.extend_from_slice(b"cash")?,
        LineKind::Security(slgs) => {
            text.extend_from_slice(slgs_word(slgs.kind))?;
            push_word(text, print_day(slgs.maturity).as_bytes())?;
            push_word(text, print_rate(slgs.rate).as_bytes())?;
        }
        LineKind::Market(note) => {
            text.extend_from_slice(b"market")?;
            push_word(text, print_day(note.maturity).as_bytes())?;
            push_word(text, print_rate(note.coupon).as_bytes())?;
        }
    }
    Ok(())
}

// Adds the line of a purchase, unless it is of 0 units.
fn push_buy(text: &mut Vec<u8>, number: u16, line: &Line, units: u64) -> Result<(), NoMemory>
    requires line { (days : PaymentDays) × IsLine days line.now }
    requires units { units ≤ line.now.most }
    ensures { OnOk result (text.new.items ≡ text.old.items ++ bought_text buy_line number line.now units) }
{
    if units > 0 {
        text.extend_from_slice(b"buy ")?;
        push_number(text, number)?;
        text.push(b' ')?;
        push_kind(text, line.kind)?;
        push_word(text, print_cents(Cents(line.step * units)).as_bytes())?;
        push_word(text, print_cents(line.cost(units)).as_bytes())?;
        text.push(b'\n')?;
    }
    Ok(())
}

#[tactic(auto, using(crate::proofs::BoughtFacts::one_bought))]
/// Adds the lines of the purchases of a permitted portfolio, in order.
pub(crate) fn push_buys(text: &mut Vec<u8>, book: &Book, plan: &Plan) -> Result<(), NoMemory>
    requires { IsPermitted book.now plan.now }
    ensures { OnOk result (text.new.items ≡ text.old.items ++ of_bought buy_line 1 (drop 1 book.now.lines) (drop 1 plan.now)) }
{
    for number in 1..book.line_count() {
        push_buy(text, number, book.line(number), plan.get(number))?;
    }
    Ok(())
}

// Adds the line of a payment, unless it is 0.
fn push_payment(text: &mut Vec<u8>, number: u16, flow: &Flow) -> Result<(), NoMemory>
    ensures { OnOk result (text.new.items ≡ text.old.items ++ pay_line number flow.now) }
{
    if flow.cents.0 > 0 {
        text.extend_from_slice(b"pay ")?;
        push_number(text, number)?;
        push_word(text, print_day(flow.day).as_bytes())?;
        push_word(text, print_cents(flow.cents).as_bytes())?;
        text.push(b'\n')?;
    }
    Ok(())
}

// Adds the lines of payments.
fn push_flows(text: &mut Vec<u8>, number: u16, flows: &[Flow]) -> Result<(), NoMemory>
    ensures { OnOk result (text.new.items ≡ text.old.items ++ flat_map (pay_line number) flows.now) }
{
    for flow in flows {
        push_payment(text, number, flow)?;
    }
    Ok(())
}

// Adds the lines of what units of a line pay, unless they are 0.
fn push_line_payments(
    text: &mut Vec<u8>,
    days: &PaymentDays,
    number: u16,
    line: &Line,
    units: u64,
) -> Result<(), NoMemory>
    requires settlement { IsSettlement days.now.settle }
    requires line { IsLine days.now line.now }
    requires units { units ≤ line.now.most }
    ensures { OnOk result (text.new.items ≡ text.old.items ++ bought_text (pay_lines days.now) number line.now units) }
{
    if units > 0 {
        push_flows(text, number, line.payments(days, units).as_slice())?;
    }
    Ok(())
}

#[tactic(auto, using(crate::proofs::BoughtFacts::one_bought))]
/// Adds the lines of what the purchases of a permitted portfolio pay, line by line, each in order of date, on open days.
pub(crate) fn push_payments(text: &mut Vec<u8>, book: &Book, plan: &Plan) -> Result<(), NoMemory>
    requires { IsPermitted book.now plan.now }
    ensures { OnOk result (text.new.items ≡ text.old.items ++ of_bought (pay_lines book.now.days) 1 (drop 1 book.now.lines) (drop 1 plan.now)) }
{
    for number in 1..book.line_count() {
        push_line_payments(
            text,
            book.payment_days(),
            number,
            book.line(number),
            plan.get(number),
        )?;
    }
    Ok(())
}
