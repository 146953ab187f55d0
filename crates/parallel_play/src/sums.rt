//! How far the history has come, and who has ended.

ghost use Rattle.std.specs.Prelude.{◌<◌, ◌^◌};

use sched_base::MAX_THREADS;

/// The numbers that threads may have, and 0.
pub(crate) const IDS: usize = MAX_THREADS as usize + 1;

/// What is known of the history before a round.
#[derive(Clone, Copy)]
pub struct Tally {
    /// The number of entries, which stops at the greatest number that there is.
    pub entries: u32,
    /// Of each number, whether that thread has ended.
    pub(crate) ended: [bool; IDS],
    ghost small: { entries < 2 ^ 32 },
}
