//! Where the tokens of a text stand in it.

ghost use Rattle.std.specs.Prelude.{◌≡◌, ◌≤◌, length};
ghost use Rattle.sched_base.specs.declared.limits.TheConstants.{MAX_POLICY_BYTES};
ghost use Rattle.policy_reader.specs.Told.{offset_of, parse_fault, told_of, type_fault};

use crate::fault::{FaultKind, PolicyFault};
use policy_lexer::Token;
use policy_parser::ParseFault;
use policy_types::TypeFault;

/// A text and its tokens.
#[derive(Clone, Copy)]
pub(crate) struct Places<'a> {
    pub(crate) text: &'a [u8],
    pub(crate) tokens: &'a [Token],
    ghost small: { length text.now ≤ MAX_POLICY_BYTES },
}

impl<'a> Places<'a> {
    /// The offset of the token with that number, and of the text's end behind the last.
    fn offset(&self, token: u32) -> u32
        ensures { result ≡ offset_of self.now.text.now self.now.tokens.now token }
    {
        match self.tokens.get(token as usize) {
            Some(token) => token.start,
            None => self.text.len() as u32,
        }
    }

    /// What is told of a fault of the grammar.
    pub(crate) fn grammar_fault(&self, fault: ParseFault) -> PolicyFault
        ensures { told_of result ≡
            parse_fault (offset_of self.now.text.now self.now.tokens.now) fault }
    {
        match fault {
            ParseFault::Unexpected(token) => PolicyFault::at(
                FaultKind::Unexpected,
                self.offset(token),
            ),
            ParseFault::Deep(token) => PolicyFault::at(FaultKind::Deep, self.offset(token)),
            ParseFault::Many(token, _limit) => PolicyFault::at(FaultKind::Many, self.offset(token)),
            ParseFault::Memory => PolicyFault::Memory,
        }
    }

    /// What is told of a broken rule of names, ranges or phases.
    pub(crate) fn rule_fault(&self, fault: TypeFault) -> PolicyFault
        ensures { told_of result ≡
            type_fault (offset_of self.now.text.now self.now.tokens.now) fault }
    {
        match fault {
            TypeFault::Unknown(token) => PolicyFault::at(FaultKind::Unknown, self.offset(token)),
            TypeFault::Twice(token) => PolicyFault::at(FaultKind::Twice, self.offset(token)),
            TypeFault::NotLinear(token) => PolicyFault::at(
                FaultKind::NotLinear,
                self.offset(token),
            ),
            TypeFault::NotHere(token) => PolicyFault::at(FaultKind::NotHere, self.offset(token)),
            TypeFault::BadRange(token) => PolicyFault::at(FaultKind::BadRange, self.offset(token)),
            TypeFault::Big(token) => PolicyFault::at(FaultKind::Big, self.offset(token)),
            TypeFault::Memory => PolicyFault::Memory,
        }
    }
}
