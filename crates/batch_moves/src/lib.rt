//! The threads of one steal, which go over from core to core one after the other.
//!
//! Each move is decided on what the moves before it left. Both bodies that run cores steal by `take_all`. It takes no
//! memory.
#![tactic(auto)]

mod next;
mod taking;

pub use crate::taking::take_all;
