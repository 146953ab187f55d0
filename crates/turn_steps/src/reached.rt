//! What a turn was told behind its threads.

use round_model::Did;
use select_phase::Look;

/// What a turn was told behind the threads that enter and wake. The answers come in one order.
#[derive(Clone, Copy)]
pub enum Reached {
    /// Nothing yet.
    Threads,
    /// That no thread is due.
    NothingDue,
    /// And what became of the thread that ran in the unit.
    Worked(Did),
    /// And the look.
    Looked(Did, Look),
    /// And that the attempt was made.
    Acted(Did, Look),
}
