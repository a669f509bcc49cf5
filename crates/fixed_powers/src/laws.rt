//! Laws of outward powers, for callers to cite. None of these calls does anything.

ghost use Rattle.fixed_powers.specs.PowerLaws.{PowersEnclose, FallsWithDays, FallsWithYield, LowAtMostHigh, IsOneAtZero, IsOneAtNoDays, ProductsFit, ChainsRise, IsSharp};

/// Each power lies on its side of the exact one, for every yield, and for every whole number of days.
pub fn powers_enclose()
    ensures { PowersEnclose }
{}

/// Powers are in order: in the days, in the yield, in the side and in the factor; they are one at the yield 0 and for no
/// days; and no product of a chain leaves 124 bits.
pub fn powers_are_ordered()
    ensures days { FallsWithDays }
    ensures yields { FallsWithYield }
    ensures sides { LowAtMostHigh }
    ensures factors { ChainsRise }
    ensures zero { IsOneAtZero }
    ensures no_days { IsOneAtNoDays }
    ensures products { ProductsFit }
{}

/// Rounding never hides one unit of yield: for yields of 0 to 3,000,000,000 units and 0 to 14,400 index days, the power
/// rounded up at the next yield is at most the power rounded down, and less where there is a day.
pub fn powers_are_sharp()
    ensures { IsSharp }
{}
