//! Want of memory.

use node_pool::PoolMemory;
use std::alloc::AllocError;

/// Why no queue was made.
#[derive(Clone, Copy, Debug, PartialEq, Eq)]
pub enum QueueMemory {
    /// There was no memory for it.
    Memory,
}

impl From<AllocError> for QueueMemory {
    ghost use Rattle.std.specs.Prelude.{◌≡◌};
    ghost use Rattle.run_queue.specs.declared.memory.QueueMemory.TheVariants.{Memory};

    ghost from_gives = { λ _ fault. fault ≡ Memory };

    fn from(_error: AllocError) -> QueueMemory {
        QueueMemory::Memory
    }
}

impl From<PoolMemory> for QueueMemory {
    ghost use Rattle.std.specs.Prelude.{◌≡◌};
    ghost use Rattle.run_queue.specs.declared.memory.QueueMemory.TheVariants.{Memory};

    ghost from_gives = { λ _ fault. fault ≡ Memory };

    fn from(_error: PoolMemory) -> QueueMemory {
        QueueMemory::Memory
    }
}
