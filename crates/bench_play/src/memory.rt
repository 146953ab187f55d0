//! Want of memory.

use sched_report::ReportMemory;
use trace_play::PlayMemory;

/// Why a bench told nothing.
#[derive(Clone, Copy, Debug, PartialEq, Eq)]
pub enum BenchMemory {
    /// There was no memory for the trace, the plan, the history or the report.
    Memory,
}

impl From<ReportMemory> for BenchMemory {
    ghost use Rattle.std.specs.Prelude.{◌≡◌};
    ghost use Rattle.bench_play.specs.declared.memory.BenchMemory.TheVariants.{Memory};

    ghost from_gives = { λ _ fault. fault ≡ Memory };

    fn from(_fault: ReportMemory) -> BenchMemory {
        BenchMemory::Memory
    }
}

impl From<PlayMemory> for BenchMemory {
    ghost use Rattle.std.specs.Prelude.{◌≡◌};
    ghost use Rattle.bench_play.specs.declared.memory.BenchMemory.TheVariants.{Memory};

    ghost from_gives = { λ _ fault. fault ≡ Memory };

    fn from(_fault: PlayMemory) -> BenchMemory {
        BenchMemory::Memory
    }
}
