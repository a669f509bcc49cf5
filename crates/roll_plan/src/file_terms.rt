//! The denominations of a rate file.

ghost use Rattle.std.specs.Prelude.{◌≡◌, ◌≤◌, IfOk, IfSome, length};
ghost use Rattle.escrow_desk.specs.Rows.{rows_of};
ghost use Rattle.escrow_units.specs.Denomination.{AreTerms};
ghost use Rattle.rate_table.specs.RateForm.{rate_file_of};
ghost use Rattle.row_fields.specs.RowForm.{Answers};
ghost use Rattle.roll_plan.specs.Steps.{stated_by};

use escrow_desk::{CaseError, FILE_LIMIT, read_rows};
use escrow_units::{Day, Terms};
use rate_table::read_rates;
use std::alloc::Global;

/// The denominations that a rate file states, in dollars: None where it has no rows. The file has at most 1,048,576 bytes.
///
/// # Errors
///
/// `Refused` with the refusal of the rate file, as `read_rates` has it. `NoMemory` where memory ran out.
pub fn terms_of(alloc: Global, settle: Day, rates: &[u8]) -> Result<Option<Terms>, CaseError>
    requires { length rates.now ≤ FILE_LIMIT }
    ensures terms { Answers result (stated_by (rate_file_of (rows_of rates.now))) }
    ensures kept { IfOk result (λ terms. IfSome terms AreTerms) }
{
    let rows = read_rows(alloc, rates)?;
    let file = read_rates(alloc, settle, &rows)?;
    Ok(file.terms)
}
