//! Serial play: one history of each plan, in which the cores take turns by the order lines.
#![tactic(auto)]

mod play;
mod rounds;
mod steps;
mod turns;

pub use crate::rounds::play_rounds;
pub use crate::steps::next_step;
