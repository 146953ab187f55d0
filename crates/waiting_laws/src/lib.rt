//! How long a thread waits: within how many units of its core one that waits runs, under three kinds of policies.
#![tactic(auto)]

mod laws;

pub use laws::{law_least, law_slices, law_waiting};
