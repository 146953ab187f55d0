//! Laws of the definitions, each a function without parameters whose contract is the law.

ghost use Rattle.text_forms.specs.Laws.{LinesLaw, WordsLaw};

/// A text is made of its lines, each ended by a line feed that the last may lack, and no line has one.
pub fn law_lines()
    ensures { LinesLaw }
{}

/// A line is made of its words and of blanks: none but blanks stand around and between the words.
pub fn law_words()
    ensures { WordsLaw }
{}
