//! Certificate files: the reason of every obligation of an accepted policy as text, and its check without any solver.
//!
//! A file has the line `certificates 1`. Each obligation follows by its line `obligation NAME S`, and S times a line
//! `system L` with L lines that are one certificate. Each line ends with a line feed.
#![tactic(auto)]

mod answer;
mod fronts;
mod laws;
mod lines;
mod reading;
mod systems;
mod verifying;
mod writing;

pub use answer::{CertFileMemory, Verified, VerifyFault};
pub use laws::{law_one_reading, law_proved, law_written};
pub use verifying::verify;
pub use writing::write_certs;
