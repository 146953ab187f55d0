//! Laws of the definitions, each a function without parameters whose contract is the law.

ghost use Rattle.core_state.specs.Laws.{LastWithinLaw, LogGrowsLaw, QuietLaw};

/// The log of a core after one entry more.
pub fn law_log_grows()
    ensures { LogGrowsLaw }
{}

/// The position behind the last entry of a log is one of the history.
pub fn law_last_within()
    ensures { LastWithinLaw }
{}

/// From the last entry of its log on, a core stays as it is.
pub fn law_quiet()
    ensures { QuietLaw }
{}
