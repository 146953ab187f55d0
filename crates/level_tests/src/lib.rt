//! Worked rows of balancing by levels: each a function whose contract is the row.
#![tactic(auto)]

pub mod rows;
