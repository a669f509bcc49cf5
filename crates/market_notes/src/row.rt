//! The rows of a price file.
ghost use Rattle.std.specs.Prelude.{◌≡◌, ◌≤ℤ◌, IfOk};
ghost use Rattle.escrow_units.specs.Calendar.{years_after_of};
ghost use Rattle.market_notes.specs.PriceForm.{has_matured_of};

use crate::note::Note;
use escrow_units::{Day, Terms, index360};

/// What a row of a price file says.
#[derive(Clone, Copy)]
pub(crate) enum PriceRow {
    /// `terms,MINIMUM,STEP`
    Terms(Terms),
    /// `note,MATURITY,COUPON,PRICE,CAP`
    Note(Note),
}

/// Whether a maturity is at or before settlement, or has the index 0.
pub(crate) fn has_matured(settle: Day, maturity: Day) -> bool
    requires { maturity ≤ℤ years_after_of settle 40 }
    ensures { result ≡ has_matured_of settle maturity }
{
    maturity <= settle || index360(settle, maturity) == 0
}
