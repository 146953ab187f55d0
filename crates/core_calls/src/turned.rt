//! What a turn comes to.

use sched_base::ThreadId;

/// What a core's turn of a round came to.
#[derive(Clone, Copy, Debug, PartialEq, Eq)]
pub struct Turned {
    /// How many entries it drew.
    pub entries: u32,
    /// The thread that ended in its unit of work, if one did.
    pub ended: Option<ThreadId>,
}
