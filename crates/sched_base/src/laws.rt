//! Laws of the definitions, each a function without parameters whose contract is the law.

ghost use Rattle.sched_base.specs.Limits.{LimitsAreSaid};

/// The limits are these numbers.
pub fn law_limits()
    ensures { LimitsAreSaid }
{}
