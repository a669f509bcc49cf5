//! What the interest of SLGS securities is counted by.
ghost use Rattle.slgs_interest.specs.PaymentLaws.{BasisCountsLeapDays, DatesBeforeFirst};

/// What the interest of SLGS securities is counted by: the latest dates of the series before the first payment, and a
/// certificate's year of 366 days exactly where a 29 February lies after settlement and not after maturity.
pub fn interest_laws()
    ensures before { DatesBeforeFirst }
    ensures basis { BasisCountsLeapDays }
{}
