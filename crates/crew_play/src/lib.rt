//! All cores of a plan played by a few workers, each core one step at a time, so that the turns of a worker's cores
//! interleave.
//!
//! A worker owns a list of hands, one for each of its cores, and gives it back. It plays one step of each, again and
//! again, until all are over. The lists are made before the first entry.
#![tactic(auto)]

mod crews;
mod dealing;
pub mod fault;
mod hand_lists;
pub mod hands;
mod playing;
mod rounds;

pub use crate::fault::CrewFault;
pub use crate::rounds::run_crew;
