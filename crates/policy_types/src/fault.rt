//! Why a syntax is no policy.

ghost use Rattle.std.specs.Prelude.{◌≡◌};

use std::alloc::{AllocError, AllocFailed};

/// A rule of names, ranges or phases that a syntax breaks. Each fault names a token by its index, from 0.
#[derive(Clone, Copy)]
pub enum TypeFault {
    /// This word behind a dot is no attribute of its owner, and no word that says something of owners.
    Unknown(u32),
    /// This name or this event stands here a second time.
    Twice(u32),
    /// Both sides of this `*` have a reference.
    NotLinear(u32),
    /// This word, or where the thread is put, is known but mayn't stand here.
    NotHere(u32),
    /// The range that begins here isn't one that may be declared, or this number isn't one that may limit a steal.
    BadRange(u32),
    /// This number, or the linear form at this operator, is too big.
    Big(u32),
    /// There was no memory for the policy.
    Memory,
}

impl From<AllocError> for TypeFault {
    ghost use Rattle.policy_types.specs.declared.fault.TypeFault.TheVariants.{Memory};

    ghost from_gives = { λ _ e. e ≡ Memory };

    fn from(_error: AllocError) -> TypeFault {
        TypeFault::Memory
    }
}

impl<T: Drop> From<AllocFailed<T>> for TypeFault {
    ghost use Rattle.policy_types.specs.declared.fault.TypeFault.TheVariants.{Memory};

    ghost from_gives = { λ _ e. e ≡ Memory };

    fn from(_error: AllocFailed<T>) -> TypeFault {
        TypeFault::Memory
    }
}
