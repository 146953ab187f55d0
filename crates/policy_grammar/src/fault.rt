//! Why tokens have no syntax.

ghost use Rattle.std.specs.Prelude.{◌≡◌};

use std::alloc::{AllocError, AllocFailed};

/// The first fault of a token list. Each token is named by its index, from 0.
#[derive(Clone, Copy)]
pub enum ParseFault {
    /// No text has this token behind the ones before it; or, with the number of tokens, the text stops too soon.
    Unexpected(u32),
    /// This `(`, `not` or unary `-` is nested too deep.
    Deep(u32),
    /// This token begins one item more than the limit, which follows it.
    Many(u32, u32),
    /// There was no memory for the syntax.
    Memory,
}

impl From<AllocError> for ParseFault {
    ghost use Rattle.policy_grammar.specs.declared.fault.ParseFault.TheVariants.{Memory};

    ghost from_gives = { λ _ e. e ≡ Memory };

    fn from(_error: AllocError) -> ParseFault {
        ParseFault::Memory
    }
}

impl<T: Drop> From<AllocFailed<T>> for ParseFault {
    ghost use Rattle.policy_grammar.specs.declared.fault.ParseFault.TheVariants.{Memory};

    ghost from_gives = { λ _ e. e ≡ Memory };

    fn from(_error: AllocFailed<T>) -> ParseFault {
        ParseFault::Memory
    }
}
