//! Bad and still rounds, an explained failed steal, phases of threads and owed entries.

ghost use Rattle.model_tests.specs.RoundRows.{EightThreadsRounds, OwedEntries, StaleReadExplained, ThreadPhases};

/// Of the rounds of the eight threads the second is bad, the third is not, and the first alone is not still.
pub fn eight_threads_rounds()
    ensures { EightThreadsRounds }
{}

/// The failed steal follows the steal before it, and nothing else explains it.
pub fn stale_read_explained()
    ensures { StaleReadExplained }
{}

/// A thread is outside, live, waiting, live and over, and stands accordingly.
pub fn thread_phases()
    ensures { ThreadPhases }
{}

/// What each core owes, at the start of rounds and on the way.
pub fn owed_entries()
    ensures { OwedEntries }
{}
