//! Certificates that a system of linear rows has no solution, and their checker.
//!
//! A certificate is a sum of rows that says `0 <= c` with c negative, as in Farkas' lemma. Or it cuts
//! the range of a variable in two, and has a certificate for either part.
#![tactic(auto)]

mod cert;
mod checker;
mod laws;
mod memory;
mod rows;

pub use cert::{Cert, Mult, MultList};
pub use checker::check;
pub use laws::law_sound;
pub use memory::SolveMemory;
pub use rows::{Column, entry};
