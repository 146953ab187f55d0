//! Laws of texts of histories.

ghost use Rattle.std.specs.Prelude.{ℕ};
ghost use Rattle.history_reader.specs.Laws.{BadHeaderLaw, OneReading};

/// Each text spells one history or has one first bad line, and not both.
pub fn law_one_reading()
    ensures { (cores : ℕ) → OneReading cores }
{}

/// A text whose first word is `history`, and that doesn't begin with the header, has a bad first line.
pub fn law_bad_header()
    ensures { BadHeaderLaw }
{}
