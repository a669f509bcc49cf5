//! What is known beforehand of plain cases.
ghost use Rattle.plain_case.specs.OwnOfferWorth.{ExcessesAreLittle, OwnOffersAreWorthIt};
ghost use Rattle.plain_case.specs.PlainGap.{PlainGapHolds, PlainPlansAreNearlyCheapest};
ghost use Rattle.plain_case.specs.PlanWorth.{PlansAreWorthIt};
ghost use Rattle.plain_case.specs.RootLeast.{LeastsAreRounding};

/// Where nothing on offer is a bargain, no line adds less at the root than its rounding: a cent for its cost and half a cent for
/// each of its payments below nothing.
pub fn least_laws()
    ensures { LeastsAreRounding }
{}

/// In a plain case what is received in the span of a need date beyond the need is worth little at the bootstrapped prices: at most
/// the least purchase of its own offer and one step of it, but for rounding. And the own offer is worth its cost: what is bought of it
/// costs no more than its payments are worth, less that excess, but for the same least purchase and step, and rounding.
pub fn purchase_laws()
    ensures excess { ExcessesAreLittle }
    ensures worth { OwnOffersAreWorthIt }
{}

/// The backward plan of a plain case costs no more than what the needs are worth at the bootstrapped prices, but for the least
/// purchase and one step of each own offer and the rounding of each line.
pub fn plan_laws()
    ensures { PlansAreWorthIt }
{}

/// In a plain case the leaf of the bootstrapped prices closes the root: its bound there is more than the cost of the backward plan,
/// less the gap of the case and one cent. So nothing that is permitted and meets the needs costs less than that plan by more than
/// the gap, and that is known without a search.
pub fn plain_laws()
    ensures root { PlainGapHolds }
    ensures cheapest { PlainPlansAreNearlyCheapest }
{}
