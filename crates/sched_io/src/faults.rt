//! What may go wrong at the edge.

use std::alloc::AllocError;

/// Where a count of faults stands still.
pub const MOST_FAULTS: u64 = u64::MAX;

/// Why a file wasn't loaded.
#[derive(Clone, Copy, Debug, PartialEq, Eq)]
pub enum LoadFault {
    /// The outside failed, or no file has that name.
    Failed,
    /// The file is longer than the limit.
    TooLong,
    /// There was no memory for its bytes.
    Memory,
}

impl From<AllocError> for LoadFault {
    ghost use Rattle.std.specs.Prelude.{◌≡◌};
    ghost use Rattle.sched_io.specs.declared.faults.LoadFault.TheVariants.{Memory};

    ghost from_gives = { λ _ fault. fault ≡ Memory };

    fn from(_error: AllocError) -> LoadFault {
        LoadFault::Memory
    }
}

/// Why a piece wasn't taken.
#[derive(Clone, Copy, Debug, PartialEq, Eq)]
pub enum PutFault {
    /// The outside failed.
    Failed,
}

/// Why an object in memory wasn't made.
#[derive(Clone, Copy, Debug, PartialEq, Eq)]
pub enum IoMemory {
    /// There was no memory for its room.
    Memory,
}

impl From<AllocError> for IoMemory {
    ghost use Rattle.std.specs.Prelude.{◌≡◌};
    ghost use Rattle.sched_io.specs.declared.faults.IoMemory.TheVariants.{Memory};

    ghost from_gives = { λ _ fault. fault ≡ Memory };

    fn from(_error: AllocError) -> IoMemory {
        IoMemory::Memory
    }
}
