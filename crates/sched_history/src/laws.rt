//! Laws of the text of histories, each a function without parameters whose contract is the law.

ghost use Rattle.sched_history.specs.Ranges.{LegalIsPrintable};

/// The entries of a legal history can be printed.
pub fn law_printable()
    ensures { LegalIsPrintable }
{}
