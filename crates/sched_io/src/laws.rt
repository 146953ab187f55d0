//! Laws of the definitions, each a function without parameters whose contract is the law.

ghost use Rattle.sched_io.specs.Numbers.{NumbersAreSaid};

/// A line, a number and a count of faults end where the documents say.
pub fn law_numbers()
    ensures { NumbersAreSaid }
{}
