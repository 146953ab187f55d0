//! Want of memory.

use round_model::ModelMemory;
use std::alloc::AllocError;

/// Why there is no report.
#[derive(Clone, Copy, Debug, PartialEq, Eq)]
pub enum ReportMemory {
    /// There was no memory for it.
    Memory,
}

impl From<AllocError> for ReportMemory {
    ghost use Rattle.std.specs.Prelude.{◌≡◌};
    ghost use Rattle.sched_report.specs.declared.memory.ReportMemory.TheVariants.{Memory};

    ghost from_gives = { λ _ fault. fault ≡ Memory };

    fn from(_error: AllocError) -> ReportMemory {
        ReportMemory::Memory
    }
}

impl From<ModelMemory> for ReportMemory {
    ghost use Rattle.std.specs.Prelude.{◌≡◌};
    ghost use Rattle.sched_report.specs.declared.memory.ReportMemory.TheVariants.{Memory};

    ghost from_gives = { λ _ fault. fault ≡ Memory };

    fn from(_error: ModelMemory) -> ReportMemory {
        ReportMemory::Memory
    }
}
