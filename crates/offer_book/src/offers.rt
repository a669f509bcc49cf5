//! The lines of a rate file's offers.

ghost use Rattle.std.specs.Prelude.{◌≡◌, All, IfOk, length, vec_items};
ghost use Rattle.std.specs.Result.{result_map_both};
ghost use Rattle.escrow_units.specs.Denomination.{AreTerms};
ghost use Rattle.escrow_units.specs.OpenDays.{IsBy2190};
ghost use Rattle.escrow_units.specs.SlgsTerms.{IsSettlement};
ghost use Rattle.row_fields.specs.RowForm.{Answers};
ghost use Rattle.slgs_rules.specs.Classification.{classified};
ghost use Rattle.rate_table.specs.Table.{IsRateFile};
ghost use Rattle.offer_book.specs.Book.{IsSecurityLine};
ghost use Rattle.offer_book.specs.Offers.{AreLinesOf, EachOfferHasOneLine, LinesKeepRules, RefusalsNameFirstFault, ending_in_time as ending_in_time_of, line_or_refused, request_of, rule_kind as kind_of_rule, slgs_lines_of};

use crate::line::{Line, LineKind};
use crate::payment_days::PaymentDays;
use escrow_desk::{CaseError, FileKind, RefusalKind};
use escrow_units::{Day, Terms, years_after};
use rate_table::{Offer, RateFile, RateIndex};
use row_fields::at_row;
use slgs_rules::{RuleFault, classify};
use std::alloc::Global;

// The name of the refusal for a rule that an offer breaks.
fn rule_kind(fault: RuleFault) -> RefusalKind
    ensures { result ≡ kind_of_rule fault }
{
    match fault {
        RuleFault::NoRate => RefusalKind::NoRate,
        RuleFault::RateAboveTable => RefusalKind::RateAboveTable,
        RuleFault::TooShort => RefusalKind::TooShort,
        RuleFault::TooLong => RefusalKind::TooLongTerm,
        RuleFault::FirstDate => RefusalKind::FirstDate,
    }
}

// A line of what matures on a day, unless that day opens more than 40 years after settlement.
pub(crate) fn ending_in_time(
    days: &PaymentDays,
    maturity: Day,
    line: Line,
) -> Result<Line, RefusalKind>
    requires settlement { IsSettlement days.now.settle }
    requires maturity { IsBy2190 maturity }
    ensures { result ≡ ending_in_time_of days.now maturity line }
{
    if days.closed.open_day(maturity) <= years_after(days.settle, 40) {
        Ok(line)
    } else {
        Err(RefusalKind::ClosedPastEnd)
    }
}

// The line of an offer, by the terms of its file and an index of the file's ranges, or the name of the rule that it breaks.
fn offered_line(
    days: &PaymentDays,
    index: &RateIndex,
    terms: Terms,
    offer: &Offer,
) -> Result<Line, RefusalKind>
    requires settlement { IsSettlement days.now.settle }
    requires terms { AreTerms terms }
    ensures { result ≡ line_or_refused days.now terms offer.now.cap (classified (request_of days.now.settle index.now offer.now)) }
{
    let most = index.maximum(offer.maturity);
    match classify(days.settle, offer.maturity, offer.rate, offer.first, most) {
        Ok(slgs) => ending_in_time(
            days,
            slgs.maturity,
            Line::of(terms, LineKind::Security(slgs), offer.cap),
        ),
        Err(fault) => Err(rule_kind(fault)),
    }
}

/// The lines of the SLGS securities that a rate file offers, in the order of their rows.
///
/// Settlement is from 2000-01-01 to 2150-01-01, and the file is one that was read. A line's step is the file's, in cents;
/// its least number of units makes the file's minimum, and its greatest is that of whole steps within the offer's cap. Its
/// security keeps every rule of term and rate that `classify` tries, against the greatest rate of the file's table at its
/// maturity, and its maturity opens at most 40 years after settlement. A file without rows offers nothing.
///
/// # Errors
///
/// `Refused` with file `Rates` for the first faulty offer, with its row, from 1, and the name of the first rule that it
/// breaks: `NoRate`, `RateAboveTable`, `TooShort`, `TooLongTerm` or `FirstDate`; or, where it keeps these, `ClosedPastEnd`
/// for a maturity that opens more than 40 years after settlement. `NoMemory` where memory ran out.
pub fn slgs_lines(
    alloc: Global,
    days: &PaymentDays,
    rates: &RateFile,
) -> Result<Vec<Line>, CaseError>
    requires settlement { IsSettlement days.now.settle }
    requires file { IsRateFile rates.now }
    ensures lines { Answers (result_map_both vec_items (λ error. error) result) (slgs_lines_of days.now rates.now) }
    ensures rules { IfOk result (λ lines. AreLinesOf days.now rates.now lines.items) }
    ensures count { IfOk result (λ lines. length lines.items ≡ length rates.now.offers) }
    ensures securities { IfOk result (λ lines. All (IsSecurityLine days.now) lines.items) }
{
    let mut lines = Vec::new(alloc);
    let Some(terms) = rates.terms else {
        return Ok(lines);
    };
    let index = RateIndex::make(alloc, rates)?;
    for offer in rates.offers.as_slice() {
        let sold = offered_line(days, &index, terms, offer);
        let line = at_row(FileKind::Rates, offer.row, sold)?;
        // Its fields are copied one by one, since the proof of the push reads their types.
        lines.push(Line { ..line })?;
    }
    Ok(lines)
}

/// What the lines of a file's offers are: each obeys every rule of term and rate of the file, is paid in time and keeps the
/// limits of a book's lines, and each offer has one; and that a refusal names the first faulty offer.
pub fn offer_laws()
    ensures lines { LinesKeepRules }
    ensures count { EachOfferHasOneLine }
    ensures refusals { RefusalsNameFirstFault }
{}
