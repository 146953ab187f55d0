//! What comes of a file, and what keeps one from being written.

use obligations::ObName;
use std::alloc::{AllocError, AllocFailed};

/// What was verified.
#[derive(Clone, Copy)]
pub struct Verified {
    /// How many systems the policy has, each with a certificate in the file that is right.
    pub systems: u32,
}

/// Why a file doesn't prove a policy, or there is no answer.
#[derive(Clone, Copy)]
pub enum VerifyFault {
    /// The obligation is the policy's first with more than `MAX_SYSTEM_CASES` conjunctive cases, and has so many. A
    /// count past `MAX_COUNT` is reported as `MAX_COUNT`.
    Cases(ObName, u32),
    /// The number, from 1, of the text's first line that may not stand where it does, or of the line after the last
    /// where a part is missing.
    BadLine(u32),
    /// The first obligation whose certificates are wrong, and the first of its systems, from 0, whose certificate is
    /// missing or isn't right. It is the number of its systems where the file has more.
    Wrong(ObName, u32),
    /// There was no memory for the systems or for a certificate.
    Memory,
}

/// Why a file wasn't written.
#[derive(Clone, Copy, Debug, PartialEq, Eq)]
pub enum CertFileMemory {
    /// There was no memory for its text.
    Memory,
}

impl From<AllocError> for CertFileMemory {
    fn from(_error: AllocError) -> CertFileMemory {
        CertFileMemory::Memory
    }
}

impl<T: Drop> From<AllocFailed<T>> for CertFileMemory {
    fn from(_error: AllocFailed<T>) -> CertFileMemory {
        CertFileMemory::Memory
    }
}
