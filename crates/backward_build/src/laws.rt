//! What own offers, bootstrapped prices and the backward plan are, as laws over their definitions.
ghost use Rattle.backward_build.specs.CurveLaws.{BootstrappedAreFair};
ghost use Rattle.backward_build.specs.OwnOfferLaws.{LinesEndByTheirPayments};
ghost use Rattle.backward_build.specs.PlanLaws.{BuiltIsBackward};

/// A line of securities ends on a day just where its last payment falls on it. So the own offer of a need date is the first line
/// whose last payment falls on that date.
pub fn offer_laws()
    ensures { LinesEndByTheirPayments }
{}

/// Bootstrapped prices are fair: there is one for each need date, and given the prices before it each is the greatest at which
/// one unit of the own offer of its date is worth no more than it costs.
#[tactic(auto, using(crate::proofs::FairFacts::bootstrapped_fair))]
pub fn price_laws()
    ensures { BootstrappedAreFair }
{}

/// The backward plan pays for each need by what falls in the span of its date, the days after the need date before it up to and
/// on it. It buys own offers of need dates alone, and of each no more than that takes: with fewer permitted units of one, all else
/// as it is, the need of its date isn't paid for.
pub fn plan_laws()
    ensures { BuiltIsBackward }
{}
