//! The law of balancing by levels: the model chooses under the compiled policy as the levels say.
#![tactic(auto)]

mod laws;

pub use laws::law_level_choice;
