//! What holds of the policy `fair`, each a function without parameters whose contract is the law.

ghost use Rattle.policy_eval.specs.Obligations.{MeetsObligations};
ghost use Rattle.policy_eval.specs.Resolved.{IsResolved};
ghost use Rattle.fair_policy.specs.Fair.{fair_meaning};

/// Every reference stands where it may, every expression is linear, every limit is kept.
pub fn law_resolved()
    ensures { IsResolved fair_meaning }
{}

/// It meets its obligations, for balance and for its handlers.
pub fn law_meets_obligations()
    ensures { MeetsObligations fair_meaning }
{}
