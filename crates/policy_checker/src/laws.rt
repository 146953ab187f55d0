//! Laws of the definitions, each a function without parameters whose contract is the law.

ghost use Rattle.policy_checker.specs.Laws.{AnswersAreTrue, CertifiedMeet, DifferencesAreDecided};
ghost use Rattle.policy_checker.specs.Laws.{PlayableLaw, PointsRefute, StatementsAreTrue};

/// A policy of which each system of each obligation has a right certificate meets all its obligations.
pub fn law_certified()
    ensures { CertifiedMeet }
{}

/// An obligation that is answered to hold holds, and one that is answered to fail doesn't. One that is left undecided
/// has a system that bounded elimination leaves open.
pub fn law_answers()
    ensures { AnswersAreTrue }
{}

/// So it is of each statement: those that a policy owes, and those on the last waiting thread of a core.
pub fn law_statements()
    ensures { StatementsAreTrue }
{}

/// At the point of an answer the statement fails.
pub fn law_points()
    ensures { PointsRefute }
{}

/// Where threads are counted and each comparison is one of a constant with a variable or with the difference of two,
/// the policy and each of its obligations are decided.
pub fn law_differences()
    ensures { DifferencesAreDecided }
{}

/// A policy whose handlers are certified meets its handler obligations, and a certified policy is such a one. Where a
/// verdict isn't playable, some handler obligation fails or has a system that bounded elimination leaves open.
pub fn law_playable()
    ensures { PlayableLaw }
{}
