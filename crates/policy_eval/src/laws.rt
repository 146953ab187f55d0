//! Laws of the definitions, each a function without parameters whose contract is the law.

ghost use Rattle.policy_eval.specs.Laws.{BestAndRestLaw, BestLaw, ObligationParts, RankedLaw, RestLaw};

/// The keys of an order rank what they compare.
pub fn law_ranked()
    ensures { RankedLaw }
{}

/// The best of a list by the keys: none comes before it, and it comes before each earlier one.
pub fn law_best()
    ensures { BestLaw }
{}

/// What `best_and_rest` gives first is the best of the list.
pub fn law_best_and_rest()
    ensures { BestAndRestLaw }
{}

/// What `best_and_rest` gives beside the best is the list without the place where the best stands.
pub fn law_rest()
    ensures { RestLaw }
{}

/// The statements of a policy are what it owes for balance and what it owes for its handlers.
pub fn law_obligation_parts()
    ensures { ObligationParts }
{}
