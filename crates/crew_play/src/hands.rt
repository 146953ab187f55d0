//! What a worker has of a core.

use core_table::Seat;
use turn_steps::Turning;

/// A core's seat, which is out while a step is played, and its turn. No reference is in it, so that a list of hands can
/// go to another thread.
#[derive(Drop)]
pub struct Hand {
    pub(crate) seat: Option<Seat>,
    pub(crate) turning: Turning,
}
