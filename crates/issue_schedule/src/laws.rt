//! Laws of the needs and of one bond, beside the calls that compute them.
ghost use Rattle.issue_schedule.specs.BondLaws.{CalledBondsPayOnce, HeldBondsPayOnce, PeriodsStartBySeries};
ghost use Rattle.issue_schedule.specs.NeedLaws.{NeedsAreAboveZero, NeedsFallWithin, NeedsKeepTotal, NeedsRise};

/// What the needs of an issue are: together the direct needs and what each bond needs, on days that strictly rise, from
/// settlement to 40 years later, and above 0 on each.
pub fn needs_laws()
    ensures total { NeedsKeepTotal }
    ensures rise { NeedsRise }
    ensures above { NeedsAreAboveZero }
    ensures within { NeedsFallWithin }
{}

/// What one bond needs, before anything is summed: the principal once, at maturity, or where it is called the price once, at
/// the call, with the interest of a half-year or what has accrued; half the coupon once on each other date of its series
/// after settlement, and on no other day anything. The half-year of a day begins at the greatest date of the series that
/// isn't after it.
pub fn bond_laws()
    ensures held { HeldBondsPayOnce }
    ensures called { CalledBondsPayOnce }
    ensures periods { PeriodsStartBySeries }
{}
