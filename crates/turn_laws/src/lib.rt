//! Fairness at rest: how soon each thread has its turn where no thread moves.
#![tactic(auto)]

mod laws;

pub use laws::{law_fair_share, law_turns_at_rest};
