//! Want of memory.

use std::alloc::AllocError;

/// Why there is no history.
#[derive(Clone, Copy, Debug, PartialEq, Eq)]
pub enum HistoryMemory {
    /// There was no memory for it.
    Memory,
}

impl From<AllocError> for HistoryMemory {
    ghost use Rattle.std.specs.Prelude.{◌≡◌};
    ghost use Rattle.history_merge.specs.declared.memory.HistoryMemory.TheVariants.{Memory};

    ghost from_gives = { λ _ fault. fault ≡ Memory };

    fn from(_error: AllocError) -> HistoryMemory {
        HistoryMemory::Memory
    }
}
