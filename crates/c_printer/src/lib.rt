//! Prints an accepted policy as a header of C99, for whoever writes the balancer of a kernel. Of any policy it prints
//! what stands behind the comment of such a header.
#![tactic(auto, using(crate::proofs::AddsLemmas::glued_append))]

mod conditions;
mod events;
mod expressions;
mod heads;
mod laws;
mod orders;
mod printer;
mod printing;
mod structs;
mod wide_rules;
mod widths;
mod words;

pub use laws::law_widths;
pub use printing::{c_body, c_text};
pub use words::HeaderKind;
