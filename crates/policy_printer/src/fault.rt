//! Why a syntax isn't printed.

ghost use Rattle.std.specs.Prelude.{◌≡◌};

use std::alloc::{AllocError, AllocFailed};

/// The one answer beside the text.
#[derive(Clone, Copy)]
pub enum PrintFault {
    /// There was no memory for the text.
    Memory,
}

impl From<AllocError> for PrintFault {
    ghost use Rattle.policy_printer.specs.declared.fault.PrintFault.TheVariants.{Memory};

    ghost from_gives = { λ _ e. e ≡ Memory };

    fn from(_error: AllocError) -> PrintFault {
        PrintFault::Memory
    }
}

impl<T: Drop> From<AllocFailed<T>> for PrintFault {
    ghost use Rattle.policy_printer.specs.declared.fault.PrintFault.TheVariants.{Memory};

    ghost from_gives = { λ _ e. e ≡ Memory };

    fn from(_error: AllocFailed<T>) -> PrintFault {
        PrintFault::Memory
    }
}
