//! The tokens that are read, and the text that they are of.

ghost use Rattle.std.specs.Prelude.{◌≡◌, ◌==◌, ◌<◌, ◌≤◌, ◌+◌, ◌^◌, ◌∷◌, ℕ, List, length, All, Ok, Err, IfOk, IfErr};
ghost use Rattle.std.specs.Prelude.{IsTrue, true, false};
ghost use Rattle.policy_grammar.specs.Terminals.{code, kind_at, lexeme_at, word_at, is_word};
ghost use Rattle.policy_grammar.specs.Symbols.{Symbol, the};
ghost use Rattle.policy_grammar.specs.Machine.{go};
ghost use Rattle.policy_grammar.specs.declared.fault.ParseFault.TheVariants.{Memory, Unexpected};
ghost use Rattle.policy_parser.specs.Answers.{Answers, LiesIn, IsWordFault};

use lists::Items;
use policy_grammar::{Lexeme, Limits, ParseFault, Terminal};
use policy_tree::Name;
use std::alloc::Global;

/// The tokens of a text, with the limits of its language and the memory for its syntax.
#[derive(Clone, Copy)]
pub(crate) struct Source<'a> {
    pub(crate) alloc: Global,
    pub(crate) text: &'a [u8],
    pub(crate) lexemes: &'a [Lexeme],
    pub(crate) limits: Limits,
    ghost few: { length lexemes.now < 2 ^ 32 },
    ghost words: { All (LiesIn text.now) lexemes.now },
}

impl<'a> Source<'a> {
    /// The token with that number, and one that is no token past the last.
    pub(crate) fn lexeme(&self, at: u32) -> Lexeme
        ensures { result ≡ lexeme_at self.now.lexemes.now at }
    {
        match self.lexemes.get(at as usize) {
            Some(lexeme) => *lexeme,
            None => Lexeme {
                terminal: Terminal::End,
                start: 0,
                end: 0,
                value: 0,
            },
        }
    }

    /// Whether that token stands there.
    pub(crate) fn has(&self, at: u32, terminal: Terminal) -> bool
        ensures is { result ≡ (kind_at self.now.lexemes.now at == code terminal) }
        ensures here { IsTrue result → kind_at self.now.lexemes.now at ≡ code terminal }
        ensures inside { IsTrue result → 0 < code terminal → at < length self.now.lexemes.now }
    {
        self.lexeme(at).terminal.is(terminal)
    }

    /// The place behind a token that must stand there.
    pub(crate) fn expect(&self, at: u32, terminal: Terminal) -> Result<u32, ParseFault>
        requires real { 0 < code terminal }
        ensures next { IfOk result (λ next. (next ≡ at + 1) × (next ≤ length self.now.lexemes.now)) }
        ensures is { IfOk result (λ next. kind_at self.now.lexemes.now at ≡ code terminal) }
        ensures fails { IfErr result (λ e. e ≡ Unexpected at) }
        ensures isnt { IfErr result (λ e. (kind_at self.now.lexemes.now at == code terminal) ≡ false) }
        ensures reads { (count : ℕ) (below : List Symbol) →
            Answers (go self.now.limits self.now.lexemes.now at count (the terminal ∷ below))
            (λ next. go self.now.limits self.now.lexemes.now next 0 below) result }
    {
        if self.has(at, terminal) {
            Ok(at + 1)
        } else {
            Err(ParseFault::Unexpected(at))
        }
    }

    /// The word that must stand there, any word, and the place behind it.
    pub(crate) fn word(&self, at: u32) -> Result<(Name, u32), ParseFault>
        ensures next { IfOk result (λ x. (x.1 ≡ at + 1) × (x.1 ≤ length self.now.lexemes.now)) }
        ensures is { IfOk result (λ x. is_word (kind_at self.now.lexemes.now at) ≡ true) }
        ensures word { IfOk result (λ x. x.0 ≡ word_at self.now.text.now self.now.lexemes.now at) }
        ensures fails { IfErr result (IsWordFault self.now.lexemes.now at) }
    {
        if !self.lexeme(at).terminal.is_word() {
            return Err(ParseFault::Unexpected(at));
        }
        Ok((self.name(at)?, at + 1))
    }

    /// The bytes of a word.
    pub(crate) fn name(&self, at: u32) -> Result<Name, ParseFault>
        ensures word { IfOk result (λ name. name ≡ word_at self.now.text.now self.now.lexemes.now at) }
        ensures memory { IfErr result (λ e. e ≡ Memory) }
    {
        let lexeme = self.lexeme(at);
        let bytes = &self.text[lexeme.start as usize..lexeme.end as usize];
        Ok(Items::from_vec(Vec::from_slice(self.alloc, bytes)?))
    }
}

/// Both parts, where the second was read. Where it wasn't, the first is dropped here, once for all readers.
pub(crate) fn both<T: Drop, U>(
    first: T,
    second: Result<U, ParseFault>,
) -> Result<(T, U), ParseFault>
    ensures ok { IfOk result (λ x. (x.0 ≡ first) × (second ≡ Ok x.1)) }
    ensures err { IfErr result (λ e. second ≡ Err e) }
{
    match second {
        Ok(second) => Ok((first, second)),
        Err(fault) => Err(fault),
    }
}
