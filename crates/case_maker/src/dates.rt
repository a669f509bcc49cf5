//! The dates of a made-up case.
ghost use Rattle.std.specs.Prelude.{◌≡◌, ◌≤◌, ◌∷◌, ◌++◌, OnOk};
ghost use Rattle.escrow_units.specs.Calendar.{date_of};
ghost use Rattle.escrow_units.specs.DateText.{date_text};
ghost use Rattle.case_maker.specs.Files.{date as date_at};

use crate::rows::push_field;
use escrow_desk::NoMemory;
use escrow_units::{Day, StepRule, half_back, print_day};

/// How many dates a case has.
pub(crate) const DATES: u32 = 40;

// The number of the last date, 2046-01-15.
const LAST_DATE: i32 = 27_773;

// Date `k`, `6 * k` months after settlement: of the half-years that end on the last date.
#[tactic(auto, using(crate::proofs::DateFacts::date_is))]
fn date(k: u32) -> Day
    requires { k ≤ DATES }
    ensures { date_of result ≡ date_at k }
{
    half_back(Day::new(LAST_DATE), DATES - k, StepRule::SameDay)
}

/// Adds a comma and date `k`.
pub(crate) fn push_date(text: &mut Vec<u8>, k: u32) -> Result<(), NoMemory>
    requires { k ≤ DATES }
    ensures { OnOk result (text.new.items ≡ text.old.items ++ 44 ∷ date_text (date_at k)) }
{
    push_field(text, print_day(date(k)).as_bytes())
}
