//! A core's attempt of the round: by a look, it takes a thread of another core, or nothing.
//!
//! The look was made without waiting, so it may be stale. The attempt holds both cores, asks the filter again, and
//! its entry is the model's on the cores as they are at its position.
#![tactic(auto)]

mod attempts;
mod contests;
pub mod outcome;
mod taking;

pub use crate::attempts::attempt;
pub use crate::outcome::Outcome;
