//! Looks for a trace under which a thread waits for ever: serial play of it comes back to a state of its one core, and
//! a thread that waits there hasn't run between.
#![tactic(auto)]

mod coming_back;
mod hunger;
mod sameness;
mod searching;
mod starving;
mod traces;

pub use coming_back::WATCHED_FROM;
pub use searching::{Starving, starving_play};
pub use traces::add_numbered;
