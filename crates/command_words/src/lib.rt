//! The words of a call: which command they are, and what it is asked of.
//!
//! A contract sees the words as lists of bytes, and what they ask for as one command of the definitions, or none.
//! The words are split by `clap`, which is told of the commands in `commands`. What a word may be is tested before,
//! since `clap` takes some words for itself.
#![tactic(auto)]

mod commands;
mod laws;
mod memory;
mod numbers;
mod request;
mod words;

pub use laws::law_word_limits;
pub use memory::WordsMemory;
pub use numbers::MAX_WORD_DIGITS;
pub use request::{HistoryFiles, Request, request_of};
pub use words::MAX_WORDS;
