//! What serial play makes of the worked plans.

ghost use Rattle.model_tests.specs.SerialRows.{EightThreadsSpread, FairBlocksAndWakes, OneCoreTwoUnits, StaleReadFails};
ghost use Rattle.model_tests.specs.SerialRows.{TwoCoresOneSteal};

/// One core runs a thread of two units.
pub fn one_core_two_units()
    ensures { OneCoreTwoUnits }
{}

/// The second core takes a thread of the first.
pub fn two_cores_one_steal()
    ensures { TwoCoresOneSteal }
{}

/// Two cores look at the first at once, and the later one fails.
pub fn stale_read_fails()
    ensures { StaleReadFails }
{}

/// A thread blocks and wakes under the fair policy.
pub fn fair_blocks_and_wakes()
    ensures { FairBlocksAndWakes }
{}

/// Eight threads spread over four cores.
pub fn eight_threads_spread()
    ensures { EightThreadsSpread }
{}
