//! The denominations of one file's securities.
ghost use Rattle.std.specs.Prelude.{◌≡◌, ◌≤◌, IfOk};
ghost use Rattle.escrow_units.specs.Denomination.{IsDenomination, AreTerms, denomination_of, terms_of, cap_of};

use crate::decimal::{in_range, whole_number};
use crate::fault::NumberFault;
use crate::number_text::read_dollars;
use crate::security::Terms;

#[tactic(auto, unfolding(crate::specs::Denomination::denomination_of))]
fn read_denomination(bytes: &[u8]) -> Result<u64, NumberFault>
    ensures value { result ≡ denomination_of bytes.now }
    ensures limit { IfOk result (λ dollars. IsDenomination dollars) }
{
    in_range(
        whole_number(bytes, 15),
        1,
        1_000_000,
        NumberFault::OutOfRange,
    )
}

/// Reads the denominations of one file's securities from the fields of its minimum and its step.
///
/// Each field is 1 to 15 digits of whole dollars, else `BadNumber`, and from 1 to 1,000,000, else
/// `OutOfRange`; the minimum is tried first. A minimum that isn't a multiple of the step is
/// `OutOfRange` once both are read. The rules are this project's own.
#[tactic(auto, unfolding(crate::specs::Denomination::terms_of))]
pub fn read_terms(minimum: &[u8], step: &[u8]) -> Result<Terms, NumberFault>
    ensures value { result ≡ terms_of minimum.now step.now }
    ensures terms { IfOk result AreTerms }
{
    let minimum = read_denomination(minimum)?;
    let step = read_denomination(step)?;
    if minimum % step != 0 {
        return Err(NumberFault::OutOfRange);
    }
    Ok(Terms { minimum, step })
}

/// Reads the greatest purchase of one security, in whole dollars: 1 to 15 digits, else `BadNumber`.
///
/// A number outside 1 to 1,000,000,000, or below the minimum of the terms, is `OutOfRange`. The rule is
/// this project's own.
#[tactic(auto, unfolding(crate::specs::Denomination::cap_of))]
pub fn read_cap(bytes: &[u8], terms: Terms) -> Result<u64, NumberFault>
    ensures value { result ≡ cap_of terms bytes.now }
    ensures least { IfOk result (λ cap. terms.minimum ≤ cap) }
    ensures limit { IfOk result (λ cap. cap ≤ 1_000_000_000) }
{
    let cap = read_dollars(bytes)?;
    if cap < terms.minimum {
        return Err(NumberFault::OutOfRange);
    }
    Ok(cap)
}
