//! What comes of an attempt.

use sched_base::{Pos, Stolen};

/// What an attempt came to, with the position of its entry.
#[derive(Clone, Copy, PartialEq, Eq)]
pub enum Outcome {
    /// These threads were taken of the core that was chosen, in this order.
    Stole(Pos, Stolen),
    /// Nothing was taken of the core that was chosen.
    Failed(Pos),
    /// No core was chosen.
    Passed(Pos),
}
