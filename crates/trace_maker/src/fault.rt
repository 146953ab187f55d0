//! Why no trace is made.

ghost use Rattle.std.specs.Prelude.{◌≡◌};

use std::alloc::{AllocError, AllocFailed};

/// Why no trace is made.
#[derive(Clone, Copy)]
pub enum MakeFault {
    /// No trace has so many threads, or none is asked for.
    Size,
    /// There was no memory for the trace.
    Memory,
}

impl From<AllocError> for MakeFault {
    ghost use Rattle.trace_maker.specs.declared.fault.MakeFault.TheVariants.{Memory};

    ghost from_gives = { λ _ e. e ≡ Memory };

    fn from(_error: AllocError) -> MakeFault {
        MakeFault::Memory
    }
}

impl<T: Drop> From<AllocFailed<T>> for MakeFault {
    ghost use Rattle.trace_maker.specs.declared.fault.MakeFault.TheVariants.{Memory};

    ghost from_gives = { λ _ e. e ≡ Memory };

    fn from(_error: AllocFailed<T>) -> MakeFault {
        MakeFault::Memory
    }
}
