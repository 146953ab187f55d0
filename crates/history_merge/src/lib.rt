//! The logs of all cores back into the one history that they are of: as a list, or written line by line.
//!
//! Each log is walked by a cursor. At each position of the history some log's cursor stands at the entry there, and
//! each cursor that stands at it passes it.
#![tactic(auto)]

pub mod cursors;
pub mod laws;
pub mod memory;
pub mod merging;
pub mod writing;

pub use crate::cursors::Cursors;
pub use crate::memory::HistoryMemory;
pub use crate::merging::{entry_count, merge};
pub use crate::writing::write_merged;
