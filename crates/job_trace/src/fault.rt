//! Why a text is no trace.

ghost use Rattle.std.specs.Prelude.{◌≡◌};

use std::alloc::{AllocError, AllocFailed};

/// The first fault of a text. Lines are numbered from 1, and every line counts.
#[derive(Clone, Copy)]
pub enum TraceFault {
    /// The line has none of the forms, or isn't of the kind that must stand there. Where the text ends before its
    /// second line, it is the number behind the last line's.
    BadLine(u32),
    /// A number of the line is out of its range, or there are too many bursts or cores. The end that is passed is told.
    Limit(u32, i64),
    /// The line gives what a line before gives, or the same constant twice.
    Twice(u32),
    /// There was no memory for the trace.
    Memory,
}

impl From<AllocError> for TraceFault {
    ghost use Rattle.job_trace.specs.declared.fault.TraceFault.TheVariants.{Memory};

    ghost from_gives = { λ _ e. e ≡ Memory };

    fn from(_error: AllocError) -> TraceFault {
        TraceFault::Memory
    }
}

impl<T: Drop> From<AllocFailed<T>> for TraceFault {
    ghost use Rattle.job_trace.specs.declared.fault.TraceFault.TheVariants.{Memory};

    ghost from_gives = { λ _ e. e ≡ Memory };

    fn from(_error: AllocFailed<T>) -> TraceFault {
        TraceFault::Memory
    }
}
