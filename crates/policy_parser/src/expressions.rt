//! Reads expressions and orders.

ghost use Rattle.std.specs.Prelude.{◌≡◌, ◌==◌, ◌<◌, ◌≤◌, ◌+◌, ◌∷◌, ℕ, List, length, IfOk, IfSome, IfNone, false};
ghost use Rattle.policy_grammar.specs.Terminals.{code, kind_at};
ghost use Rattle.policy_grammar.specs.declared.terminal.Terminal.TheVariants.{Minus, Plus, Star};
ghost use Rattle.policy_grammar.specs.Words.{owner_word, sign_word};
ghost use Rattle.policy_grammar.specs.Expressions.{IsOperand, IsFactor, IsTerm, IsAdded, IsExpr};
ghost use Rattle.policy_grammar.specs.Symbols.{Symbol, operand, operators, is_owner};
ghost use Rattle.policy_grammar.specs.Machine.{go};
ghost use Rattle.policy_parser.specs.Answers.{Answers, IsOver};

use crate::source::{Source, both};
use lists::Items;
use policy_grammar::{ParseFault, Terminal};
use policy_syntax::{
    AddedSyntax, ExprSyntax, FactorSyntax, OperandSyntax, Owner, TermSyntax, TimesSyntax,
};

impl<'a> Source<'a> {
    /// An expression, where so many are open around it.
    pub(crate) fn expression(&self, at: u32, depth: u32) -> Result<(ExprSyntax, u32), ParseFault>
        requires within { at ≤ length self.now.lexemes.now }
        requires opens { depth ≤ self.now.limits.nesting }
        ensures later { IfOk result (λ x. (at < x.1) × (x.1 ≤ length self.now.lexemes.now)) }
        ensures is { IfOk result (λ x. IsExpr self.now.text.now self.now.lexemes.now at x.0 x.1) }
        ensures over { IfOk result (λ x. IsOver self.now.lexemes.now x.1) }
        ensures reads { (count : ℕ) (below : List Symbol) →
            Answers (go self.now.limits self.now.lexemes.now at count (operand depth depth 0 ∷ below))
            (λ x. go self.now.limits self.now.lexemes.now x.1 count below) result }
    {
        let (first, next, counted) = self.term(at, depth, 0)?;
        let (first, (rest, end)) = both(first, self.added(next, depth, counted))?;
        Ok((ExprSyntax { at, first, rest }, end))
    }

    /// What is added there to a term or taken from it, where so many are open and so many operators came before.
    fn added(
        &self,
        at: u32,
        depth: u32,
        before: u32,
    ) -> Result<(Items<AddedSyntax>, u32), ParseFault>
        requires within { at ≤ length self.now.lexemes.now }
        requires opens { depth ≤ self.now.limits.nesting }
        requires few { before ≤ self.now.limits.operators }
        requires star { (kind_at self.now.lexemes.now at == code Star) ≡ false }
        ensures later { IfOk result (λ x. (at ≤ x.1) × (x.1 ≤ length self.now.lexemes.now)) }
        ensures is { IfOk result (λ x. IsAdded self.now.text.now self.now.lexemes.now at x.0 x.1) }
        ensures over { IfOk result (λ x. IsOver self.now.lexemes.now x.1) }
        ensures reads { (count : ℕ) (below : List Symbol) →
            Answers (go self.now.limits self.now.lexemes.now at count (operators depth before ∷ below))
            (λ x. go self.now.limits self.now.lexemes.now x.1 count below) result }
    {
        let mut rest = Vec::new(self.alloc);
        let mut next = at;
        let mut counted = before;
        'sums: loop {
            let minus = match self.sign(next) {
                Some(minus) => minus,
                None => return Ok((Items::from_vec(rest), next)),
            };
            if counted >= self.limits.operators {
                return Err(ParseFault::Many(next, self.limits.operators));
            }
            let (term, after, more) = self.term(next + 1, depth, counted + 1)?;
            rest.push(AddedSyntax {
                at: next,
                minus,
                term,
            })?;
            next = after;
            counted = more;
        }
    }

    /// A term of an expression that has so many operators before it, and how many it has then.
    fn term(&self, at: u32, depth: u32, before: u32) -> Result<(TermSyntax, u32, u32), ParseFault>
        requires within { at ≤ length self.now.lexemes.now }
        requires opens { depth ≤ self.now.limits.nesting }
        requires few { before ≤ self.now.limits.operators }
        ensures later { IfOk result (λ x. (at < x.1) × (x.1 ≤ length self.now.lexemes.now)) }
        ensures few { IfOk result (λ x. x.2 ≤ self.now.limits.operators) }
        ensures is { IfOk result (λ x. IsTerm self.now.text.now self.now.lexemes.now at x.0 x.1) }
        ensures over { IfOk result (λ x. (kind_at self.now.lexemes.now x.1 == code Star) ≡ false) }
        ensures reads { (count : ℕ) (below : List Symbol) →
            Answers (go self.now.limits self.now.lexemes.now at count (operand depth depth before ∷ below))
            (λ x. go self.now.limits self.now.lexemes.now x.1 count (operators depth x.2 ∷ below)) result }
    {
        let (first, mut next, mut counted) = self.factor(at, depth, depth, before)?;
        let mut rest = Vec::new(self.alloc);
        'stars: while self.has(next, Terminal::Star) {
            if counted >= self.limits.operators {
                return Err(ParseFault::Many(next, self.limits.operators));
            }
            let (factor, after, more) = self.factor(next + 1, depth, depth, counted + 1)?;
            rest.push(TimesSyntax { at: next, factor })?;
            next = after;
            counted = more;
        }
        Ok((
            TermSyntax {
                at,
                first,
                rest: Items::from_vec(rest),
            },
            next,
            counted,
        ))
    }

    /// A factor of an expression around which `base` are open, where `depth` are and so many operators came before it,
    /// and how many operators have come then.
    fn factor(
        &self,
        at: u32,
        base: u32,
        depth: u32,
        before: u32,
    ) -> Result<(FactorSyntax, u32, u32), ParseFault>
        requires within { at ≤ length self.now.lexemes.now }
        requires opens { depth ≤ self.now.limits.nesting }
        requires few { before ≤ self.now.limits.operators }
        ensures later { IfOk result (λ x. (at < x.1) × (x.1 ≤ length self.now.lexemes.now)) }
        ensures few { IfOk result (λ x. x.2 ≤ self.now.limits.operators) }
        ensures signs { IfOk result (λ x. at + x.0.signs < x.1) }
        ensures is { IfOk result (λ x. IsFactor self.now.text.now self.now.lexemes.now at x.0 x.1) }
        ensures reads { (count : ℕ) (below : List Symbol) →
            Answers (go self.now.limits self.now.lexemes.now at count (operand base depth before ∷ below))
            (λ x. go self.now.limits self.now.lexemes.now x.1 count (operators base x.2 ∷ below)) result }
    {
        if !self.has(at, Terminal::Minus) {
            let (operand, next) = self.operand(at)?;
            return Ok((
                FactorSyntax {
                    at,
                    signs: 0,
                    operand,
                },
                next,
                before,
            ));
        }
        if before >= self.limits.operators {
            return Err(ParseFault::Many(at, self.limits.operators));
        }
        if depth >= self.limits.nesting {
            return Err(ParseFault::Deep(at));
        }
        let (inner, next, counted) = self.factor(at + 1, base, depth + 1, before + 1)?;
        Ok((
            FactorSyntax {
                at,
                signs: inner.signs + 1,
                operand: inner.operand,
            },
            next,
            counted,
        ))
    }

    /// A number or a reference.
    fn operand(&self, at: u32) -> Result<(OperandSyntax, u32), ParseFault>
        requires within { at ≤ length self.now.lexemes.now }
        ensures later { IfOk result (λ x. (at < x.1) × (x.1 ≤ length self.now.lexemes.now)) }
        ensures is { IfOk result (λ x. IsOperand self.now.text.now self.now.lexemes.now at x.0 x.1) }
        ensures reads { (count base depth before : ℕ) (below : List Symbol) →
            (kind_at self.now.lexemes.now at == code Minus) ≡ false →
            Answers (go self.now.limits self.now.lexemes.now at count (operand base depth before ∷ below))
            (λ x. go self.now.limits self.now.lexemes.now x.1 count (operators base before ∷ below)) result }
    {
        if self.has(at, Terminal::Number) {
            return Ok((OperandSyntax::Number(self.lexeme(at).value), at + 1));
        }
        let owner = match self.owner(at) {
            Some(owner) => owner,
            None => return Err(ParseFault::Unexpected(at)),
        };
        let dot = self.expect(at + 1, Terminal::Dot)?;
        let (word, next) = self.word(dot)?;
        Ok((OperandSyntax::Reference { owner, word }, next))
    }

    /// The owner that stands there.
    fn owner(&self, at: u32) -> Option<Owner>
        ensures some { IfSome result (λ owner. kind_at self.now.lexemes.now at ≡ owner_word owner) }
        ensures inside { IfSome result (λ owner. at < length self.now.lexemes.now) }
        ensures none { IfNone result (is_owner (kind_at self.now.lexemes.now at) ≡ false) }
    {
        if self.has(at, Terminal::Itself) {
            Some(Owner::Itself)
        } else if self.has(at, Terminal::Victim) {
            Some(Owner::Victim)
        } else if self.has(at, Terminal::Core) {
            Some(Owner::Core)
        } else if self.has(at, Terminal::Task) {
            Some(Owner::Thread)
        } else {
            None
        }
    }

    /// Whether the sign that stands there between terms is `-`.
    fn sign(&self, at: u32) -> Option<bool>
        ensures some { IfSome result (λ minus. kind_at self.now.lexemes.now at ≡ sign_word minus) }
        ensures inside { IfSome result (λ minus. at < length self.now.lexemes.now) }
        ensures plus { IfNone result ((kind_at self.now.lexemes.now at == code Plus) ≡ false) }
        ensures minus { IfNone result ((kind_at self.now.lexemes.now at == code Minus) ≡ false) }
    {
        if self.has(at, Terminal::Plus) {
            Some(false)
        } else if self.has(at, Terminal::Minus) {
            Some(true)
        } else {
            None
        }
    }
}
