//! Laws of the definitions, each a function without parameters whose contract is the law.

ghost use Rattle.load_words.specs.Numbers.{BitsAreSaid, GreatestWordIsSaid};

/// The widths of the parts of a word are these numbers.
pub fn law_bits()
    ensures { BitsAreSaid }
{}

/// The word of the greatest version, number of threads and load is this number.
pub fn law_greatest_word()
    ensures { GreatestWordIsSaid }
{}
