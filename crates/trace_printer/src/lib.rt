//! Prints a trace, as a text that is read as the same trace again.
#![tactic(auto)]

mod laws;
mod lines;
mod printing;
mod text;

pub use laws::law_read_again;
pub use printing::print_trace;
