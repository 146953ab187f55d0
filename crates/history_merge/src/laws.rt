//! Laws of the definitions, each a function without parameters whose contract is the law.

ghost use Rattle.history_merge.specs.Laws.{MergedLaw, OneHistoryLaw};

/// Logs are those of one history at most.
pub fn law_one_history()
    ensures { OneHistoryLaw }
{}

/// Logs of a history come to that history.
pub fn law_merged()
    ensures { MergedLaw }
{}
