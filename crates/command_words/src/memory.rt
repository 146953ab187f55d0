//! Want of memory, the one reason why words aren't told.

use std::alloc::AllocError;

/// Why it wasn't told what words ask for.
#[derive(Clone, Copy, Debug, PartialEq, Eq)]
pub enum WordsMemory {
    /// There was no memory for the commands, or for what was found in the words.
    Memory,
}

impl From<AllocError> for WordsMemory {
    fn from(_error: AllocError) -> WordsMemory {
        WordsMemory::Memory
    }
}
