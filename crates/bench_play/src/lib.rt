//! The bench: a made trace is played serially under the policy `fair`, and what its history comes to is told.
#![tactic(auto)]

mod laws;
mod memory;
mod planning;
mod playing;
mod printing;

pub use laws::law_one_bench;
pub use memory::BenchMemory;
pub use playing::{BenchTotals, play_bench};
pub use printing::print_bench;
