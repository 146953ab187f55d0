//! The cores that run: one core's threads in a queue that takes no memory, with the log of what touched it.
//!
//! A contract sees a core as a record: the core of the model, the log, the keys by which threads are elected, and
//! how much has room. Each call changes the core as the model's own function of one core does.
#![tactic(auto)]

pub mod closed;
pub mod laws;
pub mod logged;
pub mod memory;
pub mod state;
mod steps;

pub use crate::closed::Closed;
pub use crate::logged::{Logged, end_of};
pub use crate::memory::StateMemory;
pub use crate::state::CoreState;
