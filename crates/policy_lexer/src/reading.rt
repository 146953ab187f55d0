//! Reads a text from its start, piece after piece.

ghost use Rattle.std.specs.Prelude.{◌≤◌, List, Ok, Err, IfOk, IfErr, length};
ghost use Rattle.sched_base.specs.declared.limits.TheConstants.{MAX_POLICY_BYTES};
ghost use Rattle.policy_lexer.specs.declared.token.Token.{Token};
ghost use Rattle.policy_lexer.specs.declared.fault.LexFault.{LexFault};
ghost use Rattle.policy_lexer.specs.Tokens.{SpellsTokens};
ghost use Rattle.policy_lexer.specs.Faults.{IsBroken, IsFault, IsUnlessMemory};

use crate::fault::LexFault;
use crate::piece::{Step, first_step};
use crate::token::{Token, Tokens};
use std::alloc::Global;

/// The tokens of a text, or its first fault.
pub fn lex(alloc: Global, text: &[u8]) -> Result<Tokens, LexFault>
    requires { length text.now ≤ MAX_POLICY_BYTES }
    ensures tokens { IfOk result (SpellsTokens text.now) }
    ensures fault { IfErr result (IsFault text.now) }

    // A text that has tokens isn't refused, and one with a fault is refused for it.
    ensures reads { (tokens : List Token) → SpellsTokens text.now tokens → IsUnlessMemory (Ok tokens) result }
    ensures refuses { (fault : LexFault) → IsBroken text.now fault → IsUnlessMemory (Err fault) result }
{
    read(alloc, text)
}

fn read(alloc: Global, text: &[u8]) -> Result<Tokens, LexFault>
    requires { length text.now ≤ MAX_POLICY_BYTES }
    ensures tokens { IfOk result (SpellsTokens text.now) }
    ensures fault { IfErr result (IsFault text.now) }
{
    let mut tokens = Vec::new(alloc);
    let mut at = 0;
    while (at as usize) < text.len() {
        let (_read, rest) = text.split_at(at as usize);
        at = match first_step(rest, at)? {
            Step::Gap(size) => at + size,
            Step::Token(kind, size) => {
                let end = at + size;
                tokens.push(Token {
                    kind,
                    start: at,
                    end,
                })?;
                end
            }
        };
    }
    Ok(Tokens::from_vec(tokens))
}
