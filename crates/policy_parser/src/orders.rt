//! Reads orders.

ghost use Rattle.std.specs.Prelude.{◌≡◌, ◌==◌, ◌<◌, ◌≤◌, ◌+◌, ◌∷◌, List, length, IfOk, IfSome, IfNone, false};
ghost use Rattle.policy_syntax.specs.SyntaxTrees.{key_syntax_tree, order_syntax_tree};
ghost use Rattle.policy_grammar.specs.Terminals.{code, kind_at};
ghost use Rattle.policy_grammar.specs.declared.terminal.Terminal.TheVariants.{Prefer};
ghost use Rattle.policy_grammar.specs.Words.{key_word};
ghost use Rattle.policy_grammar.specs.Orders.{IsKey, IsOrder};
ghost use Rattle.policy_grammar.specs.Symbols.{Symbol, order, key, keys, is_key};
ghost use Rattle.policy_grammar.specs.Machine.{go};
ghost use Rattle.policy_parser.specs.Answers.{Answers};

use crate::source::Source;
use lists::Items;
use policy_grammar::{ParseFault, Terminal};
use policy_syntax::{KeySyntax, OrderSyntax};

impl<'a> Source<'a> {
    /// An order of at most so many keys.
    pub(crate) fn order(&self, at: u32, most: u32) -> Result<(OrderSyntax, u32), ParseFault>
        requires within { at ≤ length self.now.lexemes.now }
        ensures later { IfOk result (λ x. (at < x.1) × (x.1 ≤ length self.now.lexemes.now)) }
        ensures is { IfOk result (λ x. IsOrder self.now.text.now self.now.lexemes.now at (order_syntax_tree x.0) x.1) }
        ensures reads { (below : List Symbol) →
            Answers (go self.now.limits self.now.lexemes.now at 0 (order most ∷ below))
            (λ x. go self.now.limits self.now.lexemes.now x.1 0 below) result }
    {
        if self.has(at, Terminal::First) {
            return Ok((
                OrderSyntax {
                    at,
                    keys: Items::from_vec(Vec::new(self.alloc)),
                },
                at + 1,
            ));
        }
        let (first, mut next) = self.key(at, most, 0)?;
        let mut keys = Vec::new(self.alloc);
        keys.push(first)?;
        let mut count = 1;
        'keys: while self.has(next, Terminal::Comma) {
            let (key, after) = self.key(next + 1, most, count)?;
            keys.push(key)?;
            next = after;
            count += 1;
        }
        Ok((
            OrderSyntax {
                at,
                keys: Items::from_vec(keys),
            },
            next,
        ))
    }

    /// A key of such an order that has so many before it.
    fn key(&self, at: u32, most: u32, before: u32) -> Result<(KeySyntax, u32), ParseFault>
        requires within { at ≤ length self.now.lexemes.now }
        ensures later { IfOk result (λ x. (at < x.1) × (x.1 ≤ length self.now.lexemes.now)) }
        ensures is { IfOk result (λ x.
            IsKey self.now.text.now self.now.lexemes.now at (key_syntax_tree x.0) x.1) }
        ensures reads { (below : List Symbol) →
            Answers (go self.now.limits self.now.lexemes.now at 0 (key most before ∷ below))
            (λ x. go self.now.limits self.now.lexemes.now x.1 0 (keys most (before + 1) ∷ below)) result }
    {
        if self.has(at, Terminal::Prefer) {
            self.preference(at, most, before)
        } else {
            self.rank(at, most, before)
        }
    }

    /// `prefer` and a condition, in the same way.
    fn preference(&self, at: u32, most: u32, before: u32) -> Result<(KeySyntax, u32), ParseFault>
        requires within { at < length self.now.lexemes.now }
        requires begins { kind_at self.now.lexemes.now at ≡ code Prefer }
        ensures later { IfOk result (λ x. (at < x.1) × (x.1 ≤ length self.now.lexemes.now)) }
        ensures is { IfOk result (λ x.
            IsKey self.now.text.now self.now.lexemes.now at (key_syntax_tree x.0) x.1) }
        ensures reads { (below : List Symbol) →
            Answers (go self.now.limits self.now.lexemes.now at 0 (key most before ∷ below))
            (λ x. go self.now.limits self.now.lexemes.now x.1 0 (keys most (before + 1) ∷ below)) result }
    {
        if before >= most {
            return Err(ParseFault::Many(at, most));
        }
        let (condition, next, _count) = self.condition(at + 1, self.limits.comparisons, 0, 0)?;
        Ok((KeySyntax::Preferring { at, condition }, next))
    }

    /// `min` or `max` and an expression, in the same way.
    fn rank(&self, at: u32, most: u32, before: u32) -> Result<(KeySyntax, u32), ParseFault>
        requires within { at ≤ length self.now.lexemes.now }
        requires ranks { (kind_at self.now.lexemes.now at == code Prefer) ≡ false }
        ensures later { IfOk result (λ x. (at < x.1) × (x.1 ≤ length self.now.lexemes.now)) }
        ensures is { IfOk result (λ x.
            IsKey self.now.text.now self.now.lexemes.now at (key_syntax_tree x.0) x.1) }
        ensures reads { (below : List Symbol) →
            Answers (go self.now.limits self.now.lexemes.now at 0 (key most before ∷ below))
            (λ x. go self.now.limits self.now.lexemes.now x.1 0 (keys most (before + 1) ∷ below)) result }
    {
        let greatest = match self.greatest(at) {
            Some(greatest) => greatest,
            None => return Err(ParseFault::Unexpected(at)),
        };
        if before >= most {
            return Err(ParseFault::Many(at, most));
        }
        let (value, next) = self.expression(at + 1, 0)?;
        Ok((
            KeySyntax::Ranked {
                at,
                greatest,
                value,
            },
            next,
        ))
    }

    /// Whether the word that stands there is `max`, and not `min`.
    fn greatest(&self, at: u32) -> Option<bool>
        ensures some { IfSome result (λ greatest. kind_at self.now.lexemes.now at ≡ key_word greatest) }
        ensures inside { IfSome result (λ greatest. at < length self.now.lexemes.now) }
        ensures none { IfNone result (is_key (kind_at self.now.lexemes.now at) ≡ false) }
    {
        if self.has(at, Terminal::Min) {
            Some(false)
        } else if self.has(at, Terminal::Max) {
            Some(true)
        } else {
            None
        }
    }
}
