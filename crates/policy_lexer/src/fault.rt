//! Why a text has no tokens.

ghost use Rattle.std.specs.Prelude.{◌≡◌};

use std::alloc::AllocFailed;

/// The first fault of a text. Each offset counts bytes from 0, and the text before it has tokens.
#[derive(Clone, Copy)]
pub enum LexFault {
    /// This byte is 128 or more.
    NotAscii(u32),
    /// This byte is a control byte other than a blank, also in a comment, or begins no token.
    BadByte(u32),
    /// The word that begins here has more than `MAX_NAME_BYTES` bytes.
    LongName(u32),
    /// The number that begins here is `2^64` or more.
    WideNumber(u32),
    /// There was no memory for the tokens.
    Memory,
}

impl<T: Drop> From<AllocFailed<T>> for LexFault {
    ghost use Rattle.policy_lexer.specs.declared.fault.LexFault.TheVariants.{Memory};

    ghost from_gives = { λ _ e. e ≡ Memory };

    fn from(_error: AllocFailed<T>) -> LexFault {
        LexFault::Memory
    }
}
