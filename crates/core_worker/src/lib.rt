//! Serial play over running cores: one history of each plan, in which the cores take turns by the order lines.
//!
//! The worker of the name is the one thread that plays all cores. A crew's workers are in `crew_play`.
//!
//! Only the opening of the cores takes memory. The logs of the cores and of the rounds are those of the history that
//! was played.
#![tactic(auto)]

mod deciding;
pub mod fault;
pub mod rounds;
mod run;
mod steps;
mod turn;
mod turns;

pub use crate::fault::PlayFault;
pub use crate::rounds::play_rounds;
