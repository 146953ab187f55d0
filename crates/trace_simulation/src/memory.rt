//! Want of memory.

use sched_report::ReportMemory;
use trace_play::PlayMemory;

/// Why a trace wasn't simulated.
#[derive(Clone, Copy, Debug, PartialEq, Eq)]
pub enum SimulationMemory {
    /// There was no memory for the trace, the plan, the history or the report.
    Memory,
}

impl From<PlayMemory> for SimulationMemory {
    ghost use Rattle.std.specs.Prelude.{◌≡◌};
    ghost use Rattle.trace_simulation.specs.declared.memory.SimulationMemory.TheVariants.{Memory};

    ghost from_gives = { λ _ fault. fault ≡ Memory };

    fn from(_fault: PlayMemory) -> SimulationMemory {
        SimulationMemory::Memory
    }
}

impl From<ReportMemory> for SimulationMemory {
    ghost use Rattle.std.specs.Prelude.{◌≡◌};
    ghost use Rattle.trace_simulation.specs.declared.memory.SimulationMemory.TheVariants.{Memory};

    ghost from_gives = { λ _ fault. fault ≡ Memory };

    fn from(_fault: ReportMemory) -> SimulationMemory {
        SimulationMemory::Memory
    }
}
