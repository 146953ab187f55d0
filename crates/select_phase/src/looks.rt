//! A look at all cores.

use sched_base::{CoreId, Reads};

/// A look at all cores, and what follows from it.
#[derive(Clone, Copy)]
pub struct Look {
    /// The core that looks.
    pub by: CoreId,
    /// Of each core the position at which it was read.
    pub reads: Reads,
    /// The core that is to be stolen from, where there is a candidate.
    pub choice: Option<CoreId>,
}
