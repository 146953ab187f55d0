//! The policy `fair` as a tree, built without a text, and the proof that it meets what policies owe.
#![tactic(auto)]

mod laws;
mod parts;
mod policy;

pub use laws::{law_meets_obligations, law_resolved};
pub use policy::fair_policy;
