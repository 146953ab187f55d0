//! Simulates a trace: plays it serially under a policy that can be played, and tells the history or what that wasted.
//!
//! Of the policy only the handlers need be right, so the history may waste cores. A contract sees texts as lists of
//! bytes, and what they spell as plans and histories of the model.
#![tactic(auto)]

mod answer;
mod memory;
mod simulating;

pub use answer::{PlayedWaste, SimulationAnswer};
pub use memory::SimulationMemory;
pub use simulating::{simulate_text, waste_text};
