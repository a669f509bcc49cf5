//! Rows of an input file: their fields as days and denominations, and refusals of a row.
//!
//! The readers of the input files share what is here.
#![tactic(auto)]

mod fault;
mod row;

ghost use Rattle.std.specs.Prelude.{◌≡◌, ◌≤ℤ◌, IfOk};
ghost use Rattle.escrow_units.specs.DateText.{IsFieldDay};
ghost use Rattle.escrow_units.specs.Denomination.{AreTerms};
ghost use Rattle.row_fields.specs.RowForm.{day_by_of, day_field_of, first_terms_of, refusal_kind_of, terms_row_of};

use escrow_desk::RefusalKind;
use escrow_units::{Day, NumberFault, Terms, read_day, read_terms};
pub use fault::{RowFault, at_row, row_answer};
pub use row::Row;

/// The name of the refusal for a fault of a field.
pub fn refusal_kind(fault: NumberFault) -> RefusalKind
    ensures { result ≡ refusal_kind_of fault }
{
    match fault {
        NumberFault::BadNumber => RefusalKind::BadNumber,
        NumberFault::BadDate => RefusalKind::BadDate,
        NumberFault::OutOfRange => RefusalKind::OutOfRange,
        NumberFault::PriceRange => RefusalKind::PriceRange,
    }
}

/// A date of the years 1900 to 2199; anything else is `BadDate`.
pub fn day_field(bytes: &[u8]) -> Result<Day, RefusalKind>
    ensures value { result ≡ day_field_of bytes.now }
    ensures years { IfOk result IsFieldDay }
{
    match read_day(bytes) {
        Ok(day) => Ok(day),
        Err(_) => Err(RefusalKind::BadDate),
    }
}

/// A date up to a last day; a later one is `OutOfRange`.
pub fn day_by(bytes: &[u8], last: Day) -> Result<Day, RefusalKind>
    ensures value { result ≡ day_by_of last bytes.now }
    ensures years { IfOk result IsFieldDay }
    ensures by { IfOk result (λ day. day ≤ℤ last) }
{
    let day = day_field(bytes)?;
    if last < day {
        return Err(RefusalKind::OutOfRange);
    }
    Ok(day)
}

/// `terms,MINIMUM,STEP`: the denominations of a file's securities, in dollars.
pub fn terms_row(row: &Row) -> Result<Terms, RefusalKind>
    ensures value { result ≡ terms_row_of row.now }
    ensures terms { IfOk result AreTerms }
{
    if row.width() != 3 {
        return Err(RefusalKind::WrongFields);
    }
    read_terms(row.field(1), row.field(2)).map_err(refusal_kind)
}

/// The denominations of a file's first row, which is `terms`; any other first row is `Missing`.
pub fn first_terms(row: &Row) -> Result<Terms, RefusalKind>
    ensures value { result ≡ first_terms_of row.now }
    ensures terms { IfOk result AreTerms }
{
    if row.word() != b"terms".as_slice() {
        return Err(RefusalKind::Missing);
    }
    terms_row(row)
}
