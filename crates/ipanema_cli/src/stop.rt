//! What keeps a command from its answer.

ghost use Rattle.std.specs.Prelude.{◌≡◌};
ghost use Rattle.ipanema_cli.specs.declared.stop.Stop.TheVariants as stop;

use crate::texts::TextKind;
use bench_play::BenchMemory;
use cert_file::CertFileMemory;
use command_words::WordsMemory;
use policy_answers::CheckMemory;
use std::alloc::AllocError;
use trace_play::PlayMemory;
use trace_simulation::SimulationMemory;

/// What keeps a command from its answer.
#[derive(Clone, Copy)]
pub enum Stop {
    /// A file wasn't read.
    Unread,
    /// A text of that kind is longer than its limit.
    TooLong(TextKind),
    /// There was no memory.
    Memory,
}

impl From<AllocError> for Stop {
    ghost from_gives = { λ _ why. why ≡ stop.Memory };

    fn from(_fault: AllocError) -> Stop {
        Stop::Memory
    }
}

impl From<CheckMemory> for Stop {
    ghost from_gives = { λ _ why. why ≡ stop.Memory };

    fn from(_fault: CheckMemory) -> Stop {
        Stop::Memory
    }
}

impl From<CertFileMemory> for Stop {
    ghost from_gives = { λ _ why. why ≡ stop.Memory };

    fn from(_fault: CertFileMemory) -> Stop {
        Stop::Memory
    }
}

impl From<PlayMemory> for Stop {
    ghost from_gives = { λ _ why. why ≡ stop.Memory };

    fn from(_fault: PlayMemory) -> Stop {
        Stop::Memory
    }
}

impl From<SimulationMemory> for Stop {
    ghost from_gives = { λ _ why. why ≡ stop.Memory };

    fn from(_fault: SimulationMemory) -> Stop {
        Stop::Memory
    }
}

impl From<BenchMemory> for Stop {
    ghost from_gives = { λ _ why. why ≡ stop.Memory };

    fn from(_fault: BenchMemory) -> Stop {
        Stop::Memory
    }
}

impl From<WordsMemory> for Stop {
    ghost from_gives = { λ _ why. why ≡ stop.Memory };

    fn from(_fault: WordsMemory) -> Stop {
        Stop::Memory
    }
}
