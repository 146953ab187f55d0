//! Want of memory.

use std::alloc::AllocError;

/// Why something of the model wasn't made or changed.
#[derive(Clone, Copy, Debug, PartialEq, Eq)]
pub enum ModelMemory {
    /// There was no memory for it.
    Memory,
}

impl From<AllocError> for ModelMemory {
    ghost use Rattle.std.specs.Prelude.{◌≡◌};
    ghost use Rattle.round_model.specs.declared.memory.ModelMemory.TheVariants.{Memory};

    ghost from_gives = { λ _ fault. fault ≡ Memory };

    fn from(_error: AllocError) -> ModelMemory {
        ModelMemory::Memory
    }
}
