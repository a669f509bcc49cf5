//! The three files of a made-up case.
ghost use Rattle.std.specs.Prelude.{◌≡◌, ℕ, ◌≤◌, ◌<◌, ◌+◌, ◌*◌, [], ◌∷◌, ◌++◌, IfOk, OnOk};
ghost use Rattle.case_maker.specs.Made.{KeepsToLimit};
ghost use Rattle.case_maker.specs.Draws.{state_after};
ghost use Rattle.case_maker.specs.Files.{greatest_offer_row, greatest_rate, issue_text, lower_offer_row, lower_rate, need, need_row, note_row, prices_text, rates_text, rows_up_to, text_of, thirty_seconds as thirty_seconds_of};

use crate::dates::{DATES, push_date};
use crate::draws::Draws;
use crate::rows::{Hundredths, push_field, push_price, push_rate};
use escrow_desk::NoMemory;
use escrow_units::{Cents, print_cents};
use std::alloc::Global;

/// How many notes a case has.
const NOTES: u32 = 12;

/// The files of a made-up case, as texts.
#[derive(Debug, Drop)]
pub struct Made {
    /// The issue: needs of 1,000,000 to 1,250,000 dollars on each of 40 dates.
    pub issue: Vec<u8>,
    /// The rates, and two offers for each date: one at the greatest rate, and one at a lower one.
    pub rates: Vec<u8>,
    /// The prices of 12 notes.
    pub prices: Vec<u8>,
}

// Adds the row of what is needed on a date.
#[tactic(auto, unfolding(crate::specs::Files::need_row))]
fn push_need(text: &mut Vec<u8>, k: u32, cents: Cents) -> Result<(), NoMemory>
    requires { k ≤ DATES }
    ensures { OnOk result (text.new.items ≡ text.old.items ++ need_row k cents.0 ++ 10 ∷ []) }
{
    text.extend_from_slice(b"need")?;
    push_date(text, k)?;
    push_field(text, print_cents(cents).as_bytes())?;
    text.push(b'\n')?;
    Ok(())
}

// Adds the rows of what is needed on the dates.
#[tactic(auto, using(crate::proofs::RowFacts::row_steps))]
fn push_needs(text: &mut Vec<u8>, draws: &mut Draws) -> Result<(), NoMemory>
    ghost number: { ℕ }
    requires { draws.old.state ≡ state_after number 1 }
    ensures text { OnOk result (text.new.items ≡ text.old.items ++ text_of (rows_up_to DATES (λ k. need_row k (need number k)))) }
    ensures draws { OnOk result (draws.new.state ≡ state_after number 41) }
{
    for k in 1..=DATES {
        let cents = Cents(100_000_000 + u64::from(draws.below(25_000_000)));
        push_need(text, k, cents)?;
    }
    Ok(())
}

// The issue file.
#[tactic(auto, using(crate::proofs::RowFacts::file_parts))]
fn issue(alloc: Global, draws: &mut Draws) -> Result<Vec<u8>, NoMemory>
    ghost number: { ℕ }
    requires { draws.old.state ≡ state_after number 1 }
    ensures text { IfOk result (λ text. text.items ≡ issue_text number) }
    ensures draws { OnOk result (draws.new.state ≡ state_after number 41) }
{
    let mut text = Vec::from_slice(alloc, b"settle,2026-01-15\n")?;
    push_needs(&mut text, draws)?;
    text.extend_from_slice(b"restricted,6.00\nallowance,50000.00\nbudget,1000\n")?;
    Ok(text)
}

// Adds an offer for a date, at the greatest rate.
#[tactic(auto, unfolding(crate::specs::Files::greatest_offer_row))]
fn push_greatest_offer(text: &mut Vec<u8>, k: u32) -> Result<(), NoMemory>
    requires { k ≤ DATES }
    ensures { OnOk result (text.new.items ≡ text.old.items ++ greatest_offer_row k ++ 10 ∷ []) }
{
    text.extend_from_slice(b"offer")?;
    push_date(text, k)?;
    text.extend_from_slice(b",max,,100000000\n")?;
    Ok(())
}

// Adds the offers at the greatest rate.
#[tactic(auto, using(crate::proofs::RowFacts::row_steps))]
fn push_greatest_offers(text: &mut Vec<u8>) -> Result<(), NoMemory>
    ensures { OnOk result (text.new.items ≡ text.old.items ++ text_of (rows_up_to DATES greatest_offer_row)) }
{
    for k in 1..=DATES {
        push_greatest_offer(text, k)?;
    }
    Ok(())
}

// Adds an offer for a date, at a rate.
#[tactic(auto, unfolding(crate::specs::Files::lower_offer_row))]
fn push_lower_offer(text: &mut Vec<u8>, k: u32, rate: Hundredths) -> Result<(), NoMemory>
    requires { k ≤ DATES }
    ensures { OnOk result (text.new.items ≡ text.old.items ++ lower_offer_row k rate.0 ++ 10 ∷ []) }
{
    text.extend_from_slice(b"offer")?;
    push_date(text, k)?;
    push_rate(text, rate)?;
    text.extend_from_slice(b",,100000000\n")?;
    Ok(())
}

// Adds the offers at lower rates than the greatest one.
#[tactic(auto, using(crate::proofs::RowFacts::row_steps))]
fn push_lower_offers(
    text: &mut Vec<u8>,
    draws: &mut Draws,
    greatest: Hundredths,
) -> Result<(), NoMemory>
    ghost number: { ℕ }
    requires greatest { greatest.0 ≡ greatest_rate number }
    requires draws { draws.old.state ≡ state_after number 41 }
    ensures text { OnOk result (text.new.items ≡ text.old.items ++ text_of (rows_up_to DATES (λ k. lower_offer_row k (lower_rate number k)))) }
    ensures draws { OnOk result (draws.new.state ≡ state_after number 81) }
{
    for k in 1..=DATES {
        push_lower_offer(text, k, Hundredths(greatest.0 - 1 - draws.below(50)))?;
    }
    Ok(())
}

// The rate file.
#[tactic(auto, using(crate::proofs::RowFacts::file_parts))]
fn rates(alloc: Global, draws: &mut Draws, greatest: Hundredths) -> Result<Vec<u8>, NoMemory>
    ghost number: { ℕ }
    requires greatest { greatest.0 ≡ greatest_rate number }
    requires draws { draws.old.state ≡ state_after number 41 }
    ensures text { IfOk result (λ text. text.items ≡ rates_text number) }
    ensures draws { OnOk result (draws.new.state ≡ state_after number 81) }
{
    let mut text = Vec::from_slice(alloc, b"terms,1000,1\nrate,2026-02-14,2046-01-15")?;
    push_rate(&mut text, greatest)?;
    text.push(b'\n')?;
    push_greatest_offers(&mut text)?;
    push_lower_offers(&mut text, draws, greatest)?;
    Ok(text)
}

// Adds the row of a note, which matures on every other date, at a price of 102 percent and thirty-seconds.
fn push_note(
    text: &mut Vec<u8>,
    note: u32,
    coupon: Hundredths,
    thirty_seconds: u32,
) -> Result<(), NoMemory>
    requires note { 2 * note ≤ DATES }
    requires thirty_seconds { thirty_seconds < 100 }
    ensures { OnOk result (text.new.items ≡ text.old.items ++ note_row note coupon.0 thirty_seconds ++ 10 ∷ []) }
{
    text.extend_from_slice(b"note")?;
    push_date(text, 2 * note)?;
    push_rate(text, coupon)?;
    push_price(text, thirty_seconds)?;
    text.extend_from_slice(b",100000000\n")?;
    Ok(())
}

// Adds the rows of the notes.
#[tactic(auto, using(crate::proofs::RowFacts::row_steps))]
fn push_notes(text: &mut Vec<u8>, draws: &mut Draws, coupon: Hundredths) -> Result<(), NoMemory>
    ghost number: { ℕ }
    requires { draws.old.state ≡ state_after number 81 }
    ensures { OnOk result (text.new.items ≡ text.old.items ++ text_of (rows_up_to NOTES (λ j. note_row j coupon.0 (thirty_seconds_of number j)))) }
{
    for note in 1..=NOTES {
        push_note(text, note, coupon, draws.below(32))?;
    }
    Ok(())
}

// The price file.
#[tactic(auto, using(crate::proofs::RowFacts::file_parts))]
fn prices(alloc: Global, draws: &mut Draws, coupon: Hundredths) -> Result<Vec<u8>, NoMemory>
    ghost number: { ℕ }
    requires coupon { coupon.0 ≡ greatest_rate number }
    requires draws { draws.old.state ≡ state_after number 81 }
    ensures { IfOk result (λ text. text.items ≡ prices_text number) }
{
    let mut text = Vec::from_slice(alloc, b"terms,1000,1000\n")?;
    push_notes(&mut text, draws, coupon)?;
    Ok(text)
}

// The files of a case, whose figures are drawn in the order in which they stand.
#[tactic(auto, using(crate::proofs::RowFacts::row_steps))]
fn made_from(alloc: Global, mut draws: Draws) -> Result<Made, NoMemory>
    ghost number: { ℕ }
    requires { draws.state ≡ state_after number 0 }
    ensures issue { IfOk result (λ made. made.issue.items ≡ issue_text number) }
    ensures rates { IfOk result (λ made. made.rates.items ≡ rates_text number) }
    ensures prices { IfOk result (λ made. made.prices.items ≡ prices_text number) }
    ensures within { IfOk result KeepsToLimit }
{
    let greatest = Hundredths(200 + draws.below(300));
    let issue = issue(alloc, &mut draws)?;
    let rates = rates(alloc, &mut draws, greatest)?;
    let prices = prices(alloc, &mut draws, greatest)?;
    Ok(Made {
        issue,
        rates,
        prices,
    })
}

/// The files of the case of a number: the same for a number each time, and byte for byte those of the definition.
///
/// # Errors
///
/// Where memory ran out.
#[tactic(auto, using(crate::proofs::RowFacts::row_steps))]
pub fn make(alloc: Global, number: u64) -> Result<Made, NoMemory>
    ensures issue { IfOk result (λ made. made.issue.items ≡ issue_text number) }
    ensures rates { IfOk result (λ made. made.rates.items ≡ rates_text number) }
    ensures prices { IfOk result (λ made. made.prices.items ≡ prices_text number) }
    ensures within { IfOk result KeepsToLimit }
{
    made_from(alloc, Draws::from(number))
}
