//! What an attempt comes to, by its entry.

ghost use Rattle.std.specs.Prelude.{◌≡◌};
ghost use Rattle.turn_tests.specs.Steps.{outcome_in};

use round_model::Entry;
use sched_base::Pos;
use steal_phase::Outcome;

/// What the attempt came to that was added at that position. Any other entry counts as a pass.
pub(crate) fn outcome(at: Pos, entry: &Entry) -> Outcome
    ensures { result ≡ outcome_in at entry.now }
{
    match *entry {
        Entry::Steal { threads, .. } => Outcome::Stole(at, threads),
        Entry::Fail { .. } => Outcome::Failed(at),
        _ => Outcome::Passed(at),
    }
}
