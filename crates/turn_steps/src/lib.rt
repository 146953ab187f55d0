//! The turn of a core as a machine: what it asks next, what it is told, and which cores a worker plays.
//!
//! A turn asks one thing after the other, as the model does (`turn_step_of` of `round_model`), and is told what came of
//! it. Who carries out what it asks, and when, is left to its caller. No call here holds a core, waits or takes memory.
#![tactic(auto)]

pub mod asking;
mod entering;
mod laws;
pub mod reached;
mod reaching;
mod shares;
mod steps;
pub mod turning;

pub use crate::asking::{Ask, Told};
pub use crate::laws::{law_one_worker, law_shares};
pub use crate::shares::first_core;
pub use crate::turning::Turning;
