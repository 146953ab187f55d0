//! Laws of the definitions, each a function without parameters whose contract is the law.

ghost use Rattle.policy_tree.specs.Variables.{VariablesAreSaid};

/// The variables have these numbers.
pub fn law_variables()
    ensures { VariablesAreSaid }
{}
