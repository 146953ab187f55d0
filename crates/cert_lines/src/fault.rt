//! Why a certificate wasn't read or written.

use std::alloc::{AllocError, AllocFailed};

/// Why a text wasn't read.
#[derive(Clone, Copy, Debug, PartialEq, Eq)]
pub enum CertFault {
    /// The number, from 1, of the first line that may not stand where it does, or of the line after
    /// the last where a part is missing.
    BadText(u32),
    /// There was no memory for the certificate.
    Memory,
}

impl From<AllocError> for CertFault {
    ghost use Rattle.std.specs.Prelude.{◌≡◌};
    ghost use Rattle.cert_lines.specs.declared.fault.CertFault.TheVariants.{Memory};

    ghost from_gives = { λ _ fault. fault ≡ Memory };

    fn from(_error: AllocError) -> Self {
        CertFault::Memory
    }
}

impl<T: Drop> From<AllocFailed<T>> for CertFault {
    ghost use Rattle.std.specs.Prelude.{◌≡◌};
    ghost use Rattle.cert_lines.specs.declared.fault.CertFault.TheVariants.{Memory};

    ghost from_gives = { λ _ fault. fault ≡ Memory };

    fn from(_error: AllocFailed<T>) -> Self {
        CertFault::Memory
    }
}

/// Why a text wasn't written.
#[derive(Clone, Copy, Debug, PartialEq, Eq)]
pub enum CertText {
    /// There was no memory for it.
    Memory,
}

impl From<AllocError> for CertText {
    fn from(_error: AllocError) -> Self {
        CertText::Memory
    }
}
