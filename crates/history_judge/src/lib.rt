//! Judges a history that someone recorded: whether it is whole, and else which of its entries is the first that isn't
//! legal, or that it stops too soon.
//!
//! A contract sees a history as the list of its entries. What the judge is to answer is said by the model alone.
#![tactic(auto)]

mod judgement;
mod judging;
mod laws;

pub use judgement::{ReplayFault, Replayed};
pub use judging::replay;
pub use laws::law_one_judgement;
