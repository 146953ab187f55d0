//! Which number a word spells.

use std::alloc::{AllocError, Global};
use text_forms::{exact_number_in, number_in};

/// The greatest number that is asked for without leading zeros.
const LIMIT: u64 = 65_536;

/// The number that the word spells, and the one that it spells without leading zeros, up to the limit.
pub(crate) fn spelled_numbers(alloc: Global, word: &[u8]) -> Result<String, AllocError> {
    let number = number_text(alloc, number_in(word))?;
    let exact = number_text(alloc, exact_number_in(word, LIMIT))?;
    format!(in alloc; "{number} {exact}")
}

/// A number, or `none`.
fn number_text(alloc: Global, number: Option<u64>) -> Result<String, AllocError> {
    match number {
        Some(number) => format!(in alloc; "{number}"),
        None => String::from_str(alloc, "none"),
    }
}
