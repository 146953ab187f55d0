//! Serial play: what it asks of a core next, how it ends, and the laws of it.
#![tactic(auto)]

pub mod laws;
pub mod order;
pub mod serial;
pub mod turns;

pub use crate::order::{NextInTurn, next_in_turn};
pub use crate::serial::{Played, most_steps, ordered_cores, round_fits};
pub use crate::turns::NextStep;
