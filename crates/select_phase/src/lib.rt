//! What a core reads of all cores without waiting for them, and what it chooses by that: whom to steal from, and where
//! a thread goes.
//!
//! No call here holds a core or takes memory, so that none of them waits.
#![tactic(auto)]

mod choosing;
mod glances;
pub mod looks;
mod placing;

pub use crate::choosing::look;
pub use crate::looks::Look;
pub use crate::placing::place;
