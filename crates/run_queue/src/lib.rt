//! The threads that wait for a core, in a queue that takes no memory once it is made.
//!
//! A contract sees a queue as a record: its tasks in the order of their arrival, the keys by which the best is
//! elected, and how many tasks have room.
#![tactic(auto)]

mod heap;
mod line;
mod links;
pub mod memory;
mod numbers;
pub mod queue;
mod ranked;
mod scans;
mod sift;

pub use crate::memory::QueueMemory;
pub use crate::queue::Queue;
