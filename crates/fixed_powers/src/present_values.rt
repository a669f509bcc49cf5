//! Laws of present values by outward powers, for callers to cite. None of these calls does anything.

ghost use Rattle.fixed_powers.specs.PresentValues.{LowValueEncloses, HighValueEncloses, ValueFallsWithYield, LowValueAtMostHigh, LowValueExcludes, ValueFits, ValueIsTotalAtZero, ValueIsSharp};

/// Each present value lies on its side of the exact one: where the low one covers a cost, or the high one is within it,
/// so is the exact present value, which is defined without roots; and where the low one is more than a cost, so is it.
pub fn present_values_enclose()
    ensures low { LowValueEncloses }
    ensures high { HighValueEncloses }
    ensures excludes { LowValueExcludes }
{}

/// Present values are in order: in the yield and in the side; at the yield 0 they are the sum of the flows; and those of at
/// most 10^15 cents stay below 2^113 units of 2^-62 of a cent, so that a sum of them fits in 128 bits.
pub fn present_values_are_ordered()
    ensures yields { ValueFallsWithYield }
    ensures sides { LowValueAtMostHigh }
    ensures zero { ValueIsTotalAtZero }
    ensures fits { ValueFits }
{}

/// Rounding never hides one unit of yield: for yields of 0 to 3,000,000,000 units and flows of 0 to 14,400 index days,
/// the high present value at the next yield is at most the low one, and less where an amount above 0 falls at an index
/// of 1 or more.
pub fn present_values_are_sharp()
    ensures { ValueIsSharp }
{}
