//! Policies that balance by levels: which core they choose, and the plain policy that chooses the same.
#![tactic(auto)]

mod compiling;
mod conditions;
mod copies;
mod handlers;
mod keys;
pub mod laws;
mod memory;
mod typed;

pub use compiling::compile;
pub use memory::LevelMemory;
pub use typed::{Level, LevelList, Levels};
