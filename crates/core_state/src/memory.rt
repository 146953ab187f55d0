//! Want of memory.

use run_queue::QueueMemory;
use std::alloc::AllocError;

/// Why no core was opened.
#[derive(Clone, Copy, Debug, PartialEq, Eq)]
pub enum StateMemory {
    /// There was no memory for it.
    Memory,
}

impl From<AllocError> for StateMemory {
    ghost use Rattle.std.specs.Prelude.{◌≡◌};
    ghost use Rattle.core_state.specs.declared.memory.StateMemory.TheVariants.{Memory};

    ghost from_gives = { λ _ fault. fault ≡ Memory };

    fn from(_error: AllocError) -> StateMemory {
        StateMemory::Memory
    }
}

impl From<QueueMemory> for StateMemory {
    ghost use Rattle.std.specs.Prelude.{◌≡◌};
    ghost use Rattle.core_state.specs.declared.memory.StateMemory.TheVariants.{Memory};

    ghost from_gives = { λ _ fault. fault ≡ Memory };

    fn from(_error: QueueMemory) -> StateMemory {
        StateMemory::Memory
    }
}
