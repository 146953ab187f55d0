//! Laws of the definitions, each a function without parameters whose contract is the law.

ghost use Rattle.cert_lines.specs.Laws.{OneReading};

/// A text is read in one way: it spells one certificate at most, or has one first bad line.
pub fn law_one_reading()
    ensures { OneReading }
{}
