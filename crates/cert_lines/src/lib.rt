//! The text of certificates: a line for each node, a split before its left part, and that before its
//! right part.
//!
//! A split is `split V K`, and a leaf is `leaf` with ` R:M` for each multiplier. Each line ends with
//! a line feed.
#![tactic(auto)]

mod fault;
mod laws;
mod node;
mod numbers;
mod reading;
mod writing;

pub use fault::{CertFault, CertText};
pub use laws::law_one_reading;
pub use numbers::{narrow_in, unsigned_in};
pub use reading::read_cert;
pub use writing::{put_number, write_cert};
