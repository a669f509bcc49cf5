//! The fields of a rate file: rates in hundredths, and dates that may be left out.
ghost use Rattle.std.specs.Prelude.{◌≡◌, IfOk, IfSome};
ghost use Rattle.escrow_units.specs.DateText.{IsFieldDay};
ghost use Rattle.rate_table.specs.RateForm.{asked_field_of, hundredths_field_of, optional_day_field_of};
ghost use Rattle.rate_table.specs.Table.{IsTableRate, IsAsked};

use escrow_desk::RefusalKind;
use escrow_units::{AskedRate, Day, Rate, read_rate};
use row_fields::{day_field, refusal_kind};

/// A rate in whole hundredths of a percentage point.
pub(crate) fn hundredths_field(bytes: &[u8]) -> Result<Rate, RefusalKind>
    ensures value { result ≡ hundredths_field_of bytes.now }
    ensures rate { IfOk result IsTableRate }
{
    let rate = read_rate(bytes).map_err(refusal_kind)?;
    if rate.0 % 10 != 0 {
        return Err(RefusalKind::OutOfRange);
    }
    Ok(rate)
}

/// The word `max`, or a rate in whole hundredths.
pub(crate) fn asked_field(bytes: &[u8]) -> Result<AskedRate, RefusalKind>
    ensures value { result ≡ asked_field_of bytes.now }
    ensures rate { IfOk result IsAsked }
{
    if bytes == b"max".as_slice() {
        return Ok(AskedRate::Max);
    }
    Ok(AskedRate::At(hundredths_field(bytes)?))
}

/// A date, or nothing.
pub(crate) fn optional_day_field(bytes: &[u8]) -> Result<Option<Day>, RefusalKind>
    ensures value { result ≡ optional_day_field_of bytes.now }
    ensures years { IfOk result (λ day. IfSome day IsFieldDay) }
{
    if bytes.is_empty() {
        return Ok(None);
    }
    Ok(Some(day_field(bytes)?))
}
