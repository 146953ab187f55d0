//! A syntax, printed and read again.

ghost use Rattle.std.specs.Prelude.{◌≡◌, ◌≤◌, ℕ, List, IfOk, IfErr, length};
ghost use Rattle.sched_base.specs.declared.limits.TheConstants.{MAX_POLICY_BYTES};
ghost use Rattle.policy_syntax.specs.SyntaxTrees.{SyntaxTree, syntax_tree};
ghost use Rattle.policy_lexer.specs.Tokens.{SpellsTokens};
ghost use Rattle.policy_printer.specs.Printed.{IsTextOf, printed};
ghost use Rattle.language_tests.specs.Unread.{HasSyntax, IsUnread};

use policy_grammar::ParseFault;
use policy_lexer::{LexFault, Token, lex};
use policy_parser::parse;
use policy_printer::{PrintFault, print};
use policy_syntax::Syntax;
use sched_base::MAX_POLICY_BYTES;
use std::alloc::Global;

/// Why a printed text isn't read again.
#[derive(Clone, Copy)]
pub enum Unread {
    /// It has more than `MAX_POLICY_BYTES` bytes.
    TooLong,
    /// There was no memory for the text, its tokens or its syntax.
    Memory,
}

/// The syntax of the printed text of a syntax. Where some text has the syntax, the two are the
/// same, and the printed text is refused by none of the calls.
pub fn read_again(alloc: Global, syntax: &Syntax) -> Result<Syntax, Unread>
    requires { (text : List ℕ) × IsTextOf text (syntax_tree syntax.now) }
    ensures same { IfOk result (λ again. syntax_tree again ≡ syntax_tree syntax.now) }
    ensures unread { IfErr result (IsUnread (printed (syntax_tree syntax.now))) }
{
    match print(alloc, syntax) {
        Ok(text) => read(alloc, text.as_slice()),
        Err(PrintFault::Memory) => Err(Unread::Memory),
    }
}

/// The syntax of a text that has one.
fn read(alloc: Global, text: &[u8]) -> Result<Syntax, Unread>
    requires { (tree : SyntaxTree) × IsTextOf text.now tree }
    ensures same { (tree : SyntaxTree) → IsTextOf text.now tree →
        IfOk result (λ again. syntax_tree again ≡ tree) }
    ensures unread { IfErr result (IsUnread text.now) }
{
    if text.len() as u64 > MAX_POLICY_BYTES {
        return Err(Unread::TooLong);
    }
    match lex(alloc, text) {
        Ok(tokens) => read_tokens(alloc, text, tokens.as_slice()),
        Err(fault) => Err(no_tokens(fault)),
    }
}

/// The syntax of a text with these tokens, where it has one.
fn read_tokens(alloc: Global, text: &[u8], tokens: &[Token]) -> Result<Syntax, Unread>
    requires small { length text.now ≤ MAX_POLICY_BYTES }
    requires spells { SpellsTokens text.now tokens.now }
    requires within { (tree : SyntaxTree) × HasSyntax text.now tokens.now tree }
    ensures same { (tree : SyntaxTree) → HasSyntax text.now tokens.now tree →
        IfOk result (λ again. syntax_tree again ≡ tree) }
    ensures unread { IfErr result (λ unread. unread ≡ Unread.Memory) }
{
    match parse(alloc, text, tokens) {
        Ok(syntax) => Ok(syntax),
        Err(fault) => Err(no_syntax(fault)),
    }
}

/// Why there are no tokens of a text that has some.
fn no_tokens(fault: LexFault) -> Unread
    requires { fault ≡ LexFault.Memory }
    ensures { result ≡ Unread.Memory }
{
    match fault {
        LexFault::Memory => Unread::Memory,
        LexFault::NotAscii(_at) => unreachable!(),
        LexFault::BadByte(_at) => unreachable!(),
        LexFault::LongName(_at) => unreachable!(),
        LexFault::WideNumber(_at) => unreachable!(),
    }
}

/// Why there is no syntax of a text that has one.
fn no_syntax(fault: ParseFault) -> Unread
    requires { fault ≡ ParseFault.Memory }
    ensures { result ≡ Unread.Memory }
{
    match fault {
        ParseFault::Memory => Unread::Memory,
        ParseFault::Unexpected(_at) => unreachable!(),
        ParseFault::Deep(_at) => unreachable!(),
        ParseFault::Many(_at, _limit) => unreachable!(),
    }
}
