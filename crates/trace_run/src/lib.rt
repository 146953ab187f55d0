//! What a trace's text comes to where all cores run side by side: its plan, the run, and the history that is merged
//! from the logs of the cores. The cores have a thread each, or are played by a crew of fewer workers.
//!
//! The answers are those of serial play, `PlayAnswer`. What they promise is less: the history is legal and whole, or
//! stops before the first round that might not fit. Which of the legal histories comes isn't said.
#![tactic(auto)]

pub mod players;
mod running;

pub use crate::players::Players;
pub use crate::running::{run_plan, run_text};
