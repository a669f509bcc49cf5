//! What a verdict means, as laws over its definition.
ghost use Rattle.escrow_check.specs.Reasons.{NoNamesReason, YesWhereUnopposed};
ghost use Rattle.escrow_check.specs.Verdicts.{BytesHaveVerdict, VerdictsAreOne};
ghost use Rattle.escrow_check.specs.Meaning.{YesIsRight, YesNoneIsRight};

/// What a yes means. With a portfolio: it is what the certificate buys; each purchase is offered and permitted; its cash balance
/// is negative on no date; its exact yield lies in its interval and within the limit; no rival costs less by more than the gap,
/// which the issue allows; and where the tree has no point and gives the limit no multiplier, no permitted portfolio that meets the
/// needs does, whatever its yield. Without a portfolio no rival exists.
pub fn verdict_laws()
    ensures yes { YesIsRight }
    ensures none { YesNoneIsRight }
{}

/// What a no means: the reason that it gives stands, and none that comes before it; and a yes comes exactly where none stands.
pub fn reason_laws()
    ensures no { NoNamesReason }
    ensures yes { YesWhereUnopposed }
{}

/// Each text has one verdict, which is the one by computing. A case has at most 480 need dates.
pub fn text_verdict_laws()
    ensures is { BytesHaveVerdict }
    ensures one { VerdictsAreOne }
{}
