//! The answer of `waits`: how long threads wait under a policy, and how it is written.
#![tactic(auto)]

mod answering;
mod lines;

pub use answering::{WaitAnswer, Waiting, waits_text};
