//! Laws of the grammar.

ghost use Rattle.policy_grammar.specs.Answered.{EachHasAnswer, EachHasLevelTextAnswer};
ghost use Rattle.policy_grammar.specs.OneTree.{HasOneLevelTree, HasOneTree};
ghost use Rattle.policy_grammar.specs.Sizes.{PolicyLimitsAreSaid};

/// The grammar is unambiguous: tokens that are a policy are it with one syntax.
pub fn law_one_tree()
    ensures { HasOneTree }
{}

/// Tokens that are a level text are it with one syntax.
pub fn law_one_level_tree()
    ensures { HasOneLevelTree }
{}

/// Any tokens are a policy within the limits, or have a fault.
pub fn law_each_has_answer()
    ensures { EachHasAnswer }
{}

/// Any tokens are a level text within the limits, or have a fault as one.
pub fn law_each_has_level_answer()
    ensures { EachHasLevelTextAnswer }
{}

/// The limits of policies and of level texts are these numbers.
pub fn law_limits()
    ensures { PolicyLimitsAreSaid }
{}
