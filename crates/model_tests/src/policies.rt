//! Policies that are resolved and meet what they owe, plans that fit them, and what misses by one change.

ghost use Rattle.model_tests.specs.PolicyRows.{PolicyMisses, WorkedPoliciesFit};

/// The basic and the fair policy are resolved and meet what they owe, and the worked plans fit them.
pub fn worked_policies_fit()
    ensures { WorkedPoliciesFit }
{}

/// Changes of one thing in the basic policy.
pub fn policy_misses()
    ensures { PolicyMisses }
{}
