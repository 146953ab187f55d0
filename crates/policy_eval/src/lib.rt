//! What policies mean: values, conditions, orders, events, and what a policy owes.
#![tactic(auto)]

pub mod env;
pub mod evaluation;
pub mod events;
pub mod laws;
pub mod orders;

pub use crate::env::{CoreValues, Env};
pub use crate::evaluation::{holds, value};
pub use crate::events::apply_case;
pub use crate::orders::{better, comes_first};
