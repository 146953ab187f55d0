//! Why serial play didn't come to its end.

use core_state::{Closed, StateMemory};

/// Why no whole history was played.
#[derive(Drop)]
pub enum PlayFault {
    /// The next round might not fit the plan's limit. The cores are as the complete rounds before it left them.
    HistoryFull(Closed),
    /// There was no memory to open the cores.
    Memory,
}

impl From<StateMemory> for PlayFault {
    ghost use Rattle.std.specs.Prelude.{◌≡◌};
    ghost use Rattle.core_worker.specs.declared.fault.PlayFault.TheVariants.{Memory};

    ghost from_gives = { λ _ fault. fault ≡ Memory };

    fn from(_fault: StateMemory) -> PlayFault {
        PlayFault::Memory
    }
}
