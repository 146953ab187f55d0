//! All cores of a plan side by side: in each round every core takes its turn at the shared table, in a thread of its
//! own where one can be started.
//!
//! In each round a seat is split off for each core, and joined back. Before a round it is known how many entries there
//! are and who has ended, since each turn tells it. No call takes memory. The history is legal whatever the threads do,
//! and whole where it comes to its end.
#![tactic(auto)]

pub mod fault;
mod rounds;
pub mod stage;
pub mod sums;
mod tally;
mod turns;

pub use crate::fault::RunFault;
pub use crate::rounds::run_rounds;
pub use crate::stage::Stage;
pub use crate::sums::Tally;
pub use crate::turns::{split_off, take_back};
