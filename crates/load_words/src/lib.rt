//! Load words: what one core tells all others of itself in one number of 64 bits.
//!
//! A word says the version of the core, how many threads it has, and its load. A contract sees a word as a sum: each of
//! the three times a power of two. So a word says its three numbers exactly, and no other word says the same.
#![tactic(auto)]

mod laws;
mod packing;

pub use laws::{law_bits, law_greatest_word};
pub use packing::{LOAD_BITS, LoadWord, NR_BITS, pack, unpack};
