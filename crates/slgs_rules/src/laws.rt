//! What the rules of subscriptions mean.
ghost use Rattle.slgs_rules.specs.RuleLaws.{AnswersAreUnique, ClassifiedIsAnswer, SubscriptionsKeepTerms};

/// What the rules of subscriptions mean: a request has one answer, which the definition by tests gives,
/// and a security that is sold keeps the terms of SLGS securities.
pub fn rule_laws()
    ensures unique { AnswersAreUnique }
    ensures classified { ClassifiedIsAnswer }
    ensures terms { SubscriptionsKeepTerms }
{}
