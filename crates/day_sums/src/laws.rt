//! What sums of amounts by day are.
ghost use Rattle.day_sums.specs.SummedLaws.{NothingSumsToNothing, SummedAreSums, SummedFallWithin, SummedInSteps, SummedKeepTotal, SummedKeepTotalBy, SummedKeepWeighted, SumsAreUnique};

/// What the sums of amounts by day are: on days that strictly rise, above 0 each, and on each day as much as the amounts come
/// to; no other list is that. So they keep the total, also that by each day and that by weights of days, and the days between
/// which the amounts fall.
pub fn summed_laws()
    ensures sums { SummedAreSums }
    ensures unique { SumsAreUnique }
    ensures total { SummedKeepTotal }
    ensures total_by { SummedKeepTotalBy }
    ensures weighted { SummedKeepWeighted }
    ensures within { SummedFallWithin }
    ensures nothing { NothingSumsToNothing }
    ensures steps { SummedInSteps }
{}
