//! Entries with their positions.

ghost use Rattle.std.specs.Prelude.{◌≡◌, ◌≤◌};
ghost use Rattle.sched_base.specs.declared.limits.TheConstants.{MAX_ENTRIES};
ghost use Rattle.core_state.specs.Logs.{after_last};

use round_model::Entry;
use sched_base::Pos;

/// An entry of a log.
#[derive(Clone, Copy)]
pub struct Logged {
    /// The entry's place in the whole history.
    pub at: Pos,
    pub entry: Entry,
}

/// The position behind the last entry of a log, and 0 where the log is empty.
pub fn end_of(log: &[Logged]) -> Pos
    requires { after_last 0 log.now ≤ MAX_ENTRIES }
    ensures { result ≡ after_last 0 log.now }
{
    if log.is_empty() {
        return 0;
    }
    log[log.len() - 1].at + 1
}
