//! Laws of traces, each a function without parameters whose contract is the law.

ghost use Rattle.job_trace.specs.Laws.{EachHasAnswer};

/// Each text spells a trace or has a first fault.
pub fn law_each_has_answer()
    ensures { EachHasAnswer }
{}
