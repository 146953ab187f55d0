//! The names of obligations.

use obligations::{ob_name, ob_names};
use std::alloc::{AllocError, Global};

/// Whether each obligation has the name under which it is found.
pub(crate) fn names_there_and_back() -> bool {
    ob_names().iter().all(|name| is_found(name.text()))
}

/// Whether the obligation that is found under this name has it.
fn is_found(text: &str) -> bool {
    match ob_name(text) {
        Some(found) => found.text() == text,
        None => false,
    }
}

/// The name of the obligation that is found under this word.
pub(crate) fn known_name(alloc: Global, text: &str) -> Result<String, AllocError> {
    match ob_name(text) {
        Some(found) => String::from_str(alloc, found.text()),
        None => String::from_str(alloc, "unknown"),
    }
}
