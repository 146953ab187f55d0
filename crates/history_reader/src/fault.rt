//! Why a text isn't read as a history.

ghost use Rattle.std.specs.Prelude.{◌≡◌};

use std::alloc::{AllocError, AllocFailed};

/// Why a text isn't read as a history.
#[derive(Clone, Copy, Debug, PartialEq, Eq)]
pub enum HistoryFault {
    /// The number, from 1, of the first line that is that of no entry, that lacks its line feed, or that stands behind
    /// as many entries as a history may have.
    BadLine(u32),
    /// There was no memory for the entries.
    Memory,
}

impl From<AllocError> for HistoryFault {
    ghost use Rattle.history_reader.specs.declared.fault.HistoryFault.TheVariants.{Memory};

    ghost from_gives = { λ _ fault. fault ≡ Memory };

    fn from(_error: AllocError) -> HistoryFault {
        HistoryFault::Memory
    }
}

impl<T: Drop> From<AllocFailed<T>> for HistoryFault {
    ghost use Rattle.history_reader.specs.declared.fault.HistoryFault.TheVariants.{Memory};

    ghost from_gives = { λ _ fault. fault ≡ Memory };

    fn from(_error: AllocFailed<T>) -> HistoryFault {
        HistoryFault::Memory
    }
}
