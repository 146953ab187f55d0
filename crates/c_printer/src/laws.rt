//! What the types of expressions are worth.

ghost use Rattle.c_printer.specs.WidthLaws.{WidthLaw};

/// The type in which C computes an expression of a resolved policy has its value and those of all its parts, whatever
/// its variables are in their ranges.
pub fn law_widths()
    ensures { WidthLaw }
{}
