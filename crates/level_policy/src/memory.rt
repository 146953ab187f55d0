//! Want of memory.

use std::alloc::AllocError;

/// Why levels weren't compiled. They are as they were.
#[derive(Clone, Copy, Debug, PartialEq, Eq)]
pub enum LevelMemory {
    /// There was no memory for the policy.
    Memory,
}

impl From<AllocError> for LevelMemory {
    ghost use Rattle.std.specs.Prelude.{◌≡◌};
    ghost use Rattle.level_policy.specs.declared.memory.LevelMemory.TheVariants.{Memory};

    ghost from_gives = { λ _ fault. fault ≡ Memory };

    fn from(_error: AllocError) -> LevelMemory {
        LevelMemory::Memory
    }
}
