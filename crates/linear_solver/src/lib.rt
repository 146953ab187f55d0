//! A decider of linear systems: elimination, and a search over boxes.
#![tactic(auto)]

mod answer;
mod choice;
mod closing;
mod decider;
mod derived;
mod elimination;
mod ends;
mod factors;
mod first;
mod laws;
mod leaf;
mod local_search;
mod open_sums;
mod parts;
mod probe;
mod probing;
mod rows_at;
mod searching;
mod stride;
mod walk_back;

pub use answer::Answer;
pub use decider::decide;
pub use laws::law_elimination_sound;
pub use linear_cert::SolveMemory;
