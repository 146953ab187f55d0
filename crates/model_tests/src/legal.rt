//! Worked histories that are legal, and entries that miss being legal by one change.

ghost use Rattle.model_tests.specs.LegalRows.{NotWhole, OtherMisses, TwoCoresMisses, WorkedAreWhole};

/// The worked histories are whole.
pub fn worked_are_whole()
    ensures { WorkedAreWhole }
{}

/// Changes of one thing in the history of two cores and one steal.
pub fn two_cores_misses()
    ensures { TwoCoresMisses }
{}

/// Changes of one thing in the others' histories.
pub fn other_misses()
    ensures { OtherMisses }
{}

/// Histories that stop too soon aren't whole.
pub fn not_whole()
    ensures { NotWhole }
{}
