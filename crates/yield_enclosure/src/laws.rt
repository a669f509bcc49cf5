//! Laws of yields, for callers to cite. None of these calls does anything.

ghost use Rattle.yield_enclosure.specs.YieldLaws.{AreDearerBelowTheirLimit, NothingIsWithin, YieldsZeroAtItsSum};

/// Flows of 0 to 14,400 index days that sum to their cost have the yield 0 and no other, both ends of whose interval are
/// 0, where an amount above 0 falls at an index of 1 or more.
pub fn zero_yield_law()
    ensures { YieldsZeroAtItsSum }
{}

/// What a yield that isn't within a limit tells: flows of 0 to 14,400 index days, with an amount above 0 at an index of 1 or
/// more, are worth more than their cost at one unit of yield below the limit, which is from 1 to 3,000,000,000 units. Where
/// there are no flows, each limit is kept.
pub fn limit_laws()
    ensures dearer { AreDearerBelowTheirLimit }
    ensures nothing { NothingIsWithin }
{}
