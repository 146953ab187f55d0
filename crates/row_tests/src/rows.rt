//! Reports on worked histories.

ghost use Rattle.row_tests.specs.Rows.{EightThreadsReported, StaleReadReported};
ghost use Rattle.row_tests.specs.Wastes.{EagerWaste, EightThreadsWaste, TimidWaste};

/// The failed steal of three cores has one first cause, and no round is still.
pub fn stale_read_reported()
    ensures { StaleReadReported }
{}

/// The eight threads spread over four cores: the last three rounds are still, and the first of them is bad.
pub fn eight_threads_reported()
    ensures { EightThreadsReported }
{}

/// The stretch of the eight threads has six steals.
pub fn eight_threads_wasted()
    ensures { EightThreadsWaste }
{}

/// A core takes from one with a thread that runs and none that waits. Nothing explains that it fails.
pub fn eager_wasted()
    ensures { EagerWaste }
{}

/// A core waits beside one with two threads, and no steal comes.
pub fn timid_wasted()
    ensures { TimidWaste }
{}
