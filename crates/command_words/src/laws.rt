//! Laws of the definitions, each a function without parameters whose contract is the law.

ghost use Rattle.command_words.specs.Numbers.{WordLimitsAreSaid};

/// The most words of a command, and the most digits of a number among them, are as many as the documents say.
pub fn law_word_limits()
    ensures { WordLimitsAreSaid }
{}
