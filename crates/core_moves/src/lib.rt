//! The running cores of a plan side by side, and how each entry of a history moves them.
//!
//! A contract sees the cores in the order of their numbers, each with its log. Each move is one entry: it takes the
//! cores that a history left to those of the history with that entry more. Only `open` takes memory.
#![tactic(auto)]

mod changes;
pub mod cores;
pub mod moves;
pub mod sights;
mod steals;

pub use crate::cores::Cores;
