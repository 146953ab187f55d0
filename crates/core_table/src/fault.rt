//! Why no table was opened.

use core_state::StateMemory;
use std::alloc::AllocError;

/// Why no table was opened.
#[derive(Clone, Copy, Debug, PartialEq, Eq)]
pub enum TableFault {
    /// There was no memory for it.
    Memory,
}

impl From<AllocError> for TableFault {
    ghost use Rattle.std.specs.Prelude.{◌≡◌};
    ghost use Rattle.core_table.specs.declared.fault.TableFault.TheVariants.{Memory};

    ghost from_gives = { λ _ fault. fault ≡ Memory };

    fn from(_error: AllocError) -> TableFault {
        TableFault::Memory
    }
}

impl From<StateMemory> for TableFault {
    ghost use Rattle.std.specs.Prelude.{◌≡◌};
    ghost use Rattle.core_table.specs.declared.fault.TableFault.TheVariants.{Memory};

    ghost from_gives = { λ _ fault. fault ≡ Memory };

    fn from(_fault: StateMemory) -> TableFault {
        TableFault::Memory
    }
}
