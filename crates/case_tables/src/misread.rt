//! Why a line of a table isn't played.

use std::alloc::{AllocError, AllocFailed};

/// Why a line isn't played.
#[derive(Clone, Copy)]
pub(crate) enum Misread {
    /// It has none of the forms, or names a text that isn't there.
    Form,
    /// There was no memory.
    Memory,
}

impl From<AllocError> for Misread {
    fn from(_error: AllocError) -> Misread {
        Misread::Memory
    }
}

impl<T: Drop> From<AllocFailed<T>> for Misread {
    fn from(_error: AllocFailed<T>) -> Misread {
        Misread::Memory
    }
}

/// A decimal number of a line.
pub(crate) fn number(word: &str) -> Result<u64, Misread> {
    word.parse().map_err(|_error| Misread::Form)
}
