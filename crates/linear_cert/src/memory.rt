//! Want of memory, the one reason why a system isn't decided.

use std::alloc::{AllocError, AllocFailed};

/// Why a system wasn't decided. Every decider ends with this one, so a caller of several maps it once.
#[derive(Clone, Copy, Debug, PartialEq, Eq)]
pub enum SolveMemory {
    /// There was no memory for a row, a certificate or a point.
    Memory,
}

impl From<AllocError> for SolveMemory {
    fn from(_error: AllocError) -> SolveMemory {
        SolveMemory::Memory
    }
}

impl<T: Drop> From<AllocFailed<T>> for SolveMemory {
    fn from(_error: AllocFailed<T>) -> SolveMemory {
        SolveMemory::Memory
    }
}
