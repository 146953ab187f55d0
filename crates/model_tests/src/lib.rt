//! The worked rows of the model: each a function whose contract is the row.
#![tactic(auto)]

pub mod batched;
pub mod batches;
pub mod builders;
pub mod events;
pub mod legal;
pub mod plans;
pub mod plays;
pub mod policies;
pub mod rounds;
pub mod serial;
pub mod steps;
