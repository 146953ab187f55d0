//! What is counted of a play at the table.

ghost use Rattle.std.specs.Prelude.{◌<◌, ◌^◌};

use sched_base::MAX_THREADS;

/// The numbers that threads may have, and 0.
pub(crate) const IDS: usize = MAX_THREADS as usize + 1;

/// What is known of the history before a round.
#[derive(Clone, Copy)]
pub struct Count {
    /// The number of entries.
    pub(crate) entries: u32,
    /// Of each number, whether that thread has ended.
    pub(crate) ended: [bool; IDS],
    ghost small: { entries < 2 ^ 32 },
}
