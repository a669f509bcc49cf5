//! The rows of a rate file.
ghost use Rattle.std.specs.Prelude.{◌≡◌, IfOk};
ghost use Rattle.rate_table.specs.RateForm.{offer_row_of, range_row_of, rate_row_of};
ghost use Rattle.rate_table.specs.Table.{IsOffer, IsRange};
ghost use Rattle.rate_table.specs.RateRows.{IsRateRow};

use crate::fields::{asked_field, hundredths_field, optional_day_field};
use crate::table::{Offer, RateRange};
use escrow_desk::RefusalKind;
use escrow_units::{Terms, read_cap};
use row_fields::{Row, day_field, refusal_kind, terms_row};

/// What a row of a rate file says.
#[derive(Clone, Copy)]
pub(crate) enum RateRow {
    /// `terms,MINIMUM,STEP`
    Terms(Terms),
    /// `rate,FROM,TO,MAXIMUM`
    Range(RateRange),
    /// `offer,MATURITY,RATE,FIRST,CAP`
    Offer(Offer),
}

// `rate,FROM,TO,MAXIMUM`
fn range_row(row: &Row) -> Result<RateRange, RefusalKind>
    ensures value { result ≡ range_row_of row.now }
    ensures range { IfOk result IsRange }
{
    if row.width() != 4 {
        return Err(RefusalKind::WrongFields);
    }
    let from = day_field(row.field(1))?;
    let to = day_field(row.field(2))?;
    let most = hundredths_field(row.field(3))?;
    if to < from {
        return Err(RefusalKind::DateOrder);
    }
    Ok(RateRange { from, to, most })
}

// `offer,MATURITY,RATE,FIRST,CAP`, where `number` is the row's, from 1.
fn offer_row(row: &Row, number: u32, terms: Terms) -> Result<Offer, RefusalKind>
    ensures value { result ≡ offer_row_of terms number row.now }
    ensures offer { IfOk result (IsOffer terms) }
{
    if row.width() != 5 {
        return Err(RefusalKind::WrongFields);
    }
    let maturity = day_field(row.field(1))?;
    let rate = asked_field(row.field(2))?;
    let first = optional_day_field(row.field(3))?;
    let cap = read_cap(row.field(4), terms).map_err(refusal_kind)?;
    Ok(Offer {
        row: number,
        maturity,
        rate,
        first,
        cap,
    })
}

/// A row by its number, from 1, under the file's denominations.
pub(crate) fn rate_row(row: &Row, number: u32, terms: Terms) -> Result<RateRow, RefusalKind>
    ensures value { result ≡ rate_row_of terms number row.now }
    ensures row { IfOk result (IsRateRow terms) }
{
    let word = row.word();
    if word == b"terms".as_slice() {
        Ok(RateRow::Terms(terms_row(row)?))
    } else if word == b"rate".as_slice() {
        Ok(RateRow::Range(range_row(row)?))
    } else if word == b"offer".as_slice() {
        Ok(RateRow::Offer(offer_row(row, number, terms)?))
    } else {
        Err(RefusalKind::UnknownRow)
    }
}
