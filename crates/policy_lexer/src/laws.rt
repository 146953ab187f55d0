//! Laws of tokens.

ghost use Rattle.policy_lexer.specs.OneReading.{HasOneReading};

/// A text that has tokens has them in one way.
pub fn law_one_reading()
    ensures { HasOneReading }
{}
