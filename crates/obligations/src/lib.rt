//! Every obligation of a policy as systems of linear rows: it holds exactly where none of them has a solution.
#![tactic(auto)]

mod assembling;
mod building;
mod comparisons;
mod counts;
mod crossing;
mod crowding;
mod forms;
mod last_threads;
pub mod laws;
mod making;
mod marking;
mod names;
mod obligation;
mod placing;
mod premises;
mod refuting;
mod rest_gaps;
mod rows;
mod statements;

pub use counts::MAX_COUNT;
pub use last_threads::{LastWaiting, last_waiting};
pub use making::{ObligeFault, oblige, oblige_one};
pub use names::{OB_NAME_ROOM, ObName, ob_name, ob_names};
pub use obligation::{Obligation, Obligations, Question, SystemList, VarList};
pub use rest_gaps::{greatest_load, rest_gap};
