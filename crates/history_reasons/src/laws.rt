//! Laws of reasons, each a function without parameters whose contract is the law.

ghost use Rattle.history_reasons.specs.Laws.{RulesLaw};

/// An entry is legal next exactly where it keeps all its rules. So a reason, which names one that it breaks, is told of
/// no legal entry, and what breaks no rule is legal.
pub fn law_rules()
    ensures { RulesLaw }
{}
