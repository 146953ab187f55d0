//! Prints the syntax of a policy, as a text that is read as the same syntax again.
#![tactic(auto, using(crate::proofs::AddsLemmas::spaced_append))]

mod conditions;
mod expressions;
mod fault;
mod laws;
mod orders;
mod policies;
mod printer;
mod printing;
mod words;

pub use fault::PrintFault;
pub use laws::law_read_again;
pub use printing::print;
