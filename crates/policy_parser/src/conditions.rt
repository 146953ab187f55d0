//! Reads conditions.

ghost use Rattle.std.specs.Prelude.{◌≡◌, ◌<◌, ◌≤◌, ◌+◌, ◌∷◌, List, length, IfOk, IfSome, IfNone, false};
ghost use Rattle.policy_syntax.specs.SyntaxTrees.{condition_tree};
ghost use Rattle.policy_grammar.specs.Terminals.{code, kind_at};
ghost use Rattle.policy_grammar.specs.declared.terminal.Terminal.TheVariants.{Not, Open};
ghost use Rattle.policy_grammar.specs.Words.{compare_word};
ghost use Rattle.policy_grammar.specs.Conditions.{IsUnit, IsConjunction, IsCondition};
ghost use Rattle.policy_grammar.specs.Levels.{IsLevelWithin};
ghost use Rattle.policy_grammar.specs.Symbols.{Symbol, unit, ands, ors, compare, operand, is_compare};
ghost use Rattle.policy_grammar.specs.Machine.{go};
ghost use Rattle.policy_parser.specs.Answers.{Answers};

use crate::source::{Source, both};
use policy_grammar::{ParseFault, Terminal};
use policy_syntax::ConditionSyntax;
use policy_tree::Cmp;

impl<'a> Source<'a> {
    /// A condition of at most so many comparisons, where so many are open, behind so many comparisons, and how many it
    /// has had then.
    #[cycle(nested)]
    pub(crate) fn condition(
        &self,
        at: u32,
        most: u32,
        depth: u32,
        count: u32,
    ) -> Result<(ConditionSyntax, u32, u32), ParseFault>
        requires within { at ≤ length self.now.lexemes.now }
        requires opens { depth ≤ self.now.limits.nesting }
        ensures later { IfOk result (λ x. (at < x.1) × (x.1 ≤ length self.now.lexemes.now)) }
        ensures is { IfOk result (λ x. IsCondition self.now.text.now self.now.lexemes.now at (condition_tree x.0) x.1) }
        ensures reads { (below : List Symbol) →
            Answers (go self.now.limits self.now.lexemes.now at count
            (unit most depth ∷ ands most depth ∷ ors most depth ∷ below))
            (λ x. go self.now.limits self.now.lexemes.now x.1 x.2 below) result }
    {
        let (first, mut next, mut counted) = self.conjunction(at, most, depth, count)?;
        if !self.has(next, Terminal::Or) {
            return Ok((first, next, counted));
        }
        let mut parts = Vec::new(self.alloc);
        parts.push(first)?;
        'ors: loop {
            let (part, after, more) = self.conjunction(next + 1, most, depth, counted)?;
            parts.push(part)?;
            next = after;
            counted = more;
            if !self.has(next, Terminal::Or) {
                return Ok((ConditionSyntax::any_of(at, parts), next, counted));
            }
        }
    }

    /// A conjunction, in the same way.
    #[cycle(nested)]
    fn conjunction(
        &self,
        at: u32,
        most: u32,
        depth: u32,
        count: u32,
    ) -> Result<(ConditionSyntax, u32, u32), ParseFault>
        requires within { at ≤ length self.now.lexemes.now }
        requires opens { depth ≤ self.now.limits.nesting }
        ensures later { IfOk result (λ x. (at < x.1) × (x.1 ≤ length self.now.lexemes.now)) }
        ensures is { IfOk result (λ x. IsConjunction self.now.text.now self.now.lexemes.now at
            (condition_tree x.0) x.1) }
        ensures reads { (below : List Symbol) →
            Answers (go self.now.limits self.now.lexemes.now at count (unit most depth ∷ ands most depth ∷ below))
            (λ x. go self.now.limits self.now.lexemes.now x.1 x.2 below) result }
    {
        let (first, mut next, mut counted) = self.unit(at, most, depth, count)?;
        if !self.has(next, Terminal::And) {
            return Ok((first, next, counted));
        }
        let mut parts = Vec::new(self.alloc);
        parts.push(first)?;
        'ands: loop {
            let (part, after, more) = self.unit(next + 1, most, depth, counted)?;
            parts.push(part)?;
            next = after;
            counted = more;
            if !self.has(next, Terminal::And) {
                return Ok((ConditionSyntax::all_of(at, parts), next, counted));
            }
        }
    }

    /// A unit, in the same way.
    #[cycle(nested)]
    fn unit(
        &self,
        at: u32,
        most: u32,
        depth: u32,
        count: u32,
    ) -> Result<(ConditionSyntax, u32, u32), ParseFault>
        requires within { at ≤ length self.now.lexemes.now }
        requires opens { depth ≤ self.now.limits.nesting }
        ensures later { IfOk result (λ x. (at < x.1) × (x.1 ≤ length self.now.lexemes.now)) }
        ensures is { IfOk result (λ x. IsUnit self.now.text.now self.now.lexemes.now at (condition_tree x.0) x.1) }
        ensures reads { (below : List Symbol) →
            Answers (go self.now.limits self.now.lexemes.now at count (unit most depth ∷ below))
            (λ x. go self.now.limits self.now.lexemes.now x.1 x.2 below) result }
    {
        if self.has(at, Terminal::Always) {
            Ok((ConditionSyntax::Always { at }, at + 1, count))
        } else if self.has(at, Terminal::Not) {
            self.negation(at, most, depth, count)
        } else if self.has(at, Terminal::Open) {
            self.group(at, most, depth, count)
        } else {
            self.comparison(at, most, depth, count)
        }
    }

    /// `not` and a unit.
    #[cycle(nested)]
    fn negation(
        &self,
        at: u32,
        most: u32,
        depth: u32,
        count: u32,
    ) -> Result<(ConditionSyntax, u32, u32), ParseFault>
        requires within { at < length self.now.lexemes.now }
        requires opens { depth ≤ self.now.limits.nesting }
        requires begins { kind_at self.now.lexemes.now at ≡ code Not }
        ensures later { IfOk result (λ x. (at < x.1) × (x.1 ≤ length self.now.lexemes.now)) }
        ensures is { IfOk result (λ x. IsUnit self.now.text.now self.now.lexemes.now at (condition_tree x.0) x.1) }
        ensures reads { (below : List Symbol) →
            Answers (go self.now.limits self.now.lexemes.now at count (unit most depth ∷ below))
            (λ x. go self.now.limits self.now.lexemes.now x.1 x.2 below) result }
    {
        if depth >= self.limits.nesting {
            return Err(ParseFault::Deep(at));
        }
        let (inner, next, counted) = self.unit(at + 1, most, depth + 1, count)?;
        let whole = ConditionSyntax::not_of(self.alloc, at, inner)?;
        Ok((whole, next, counted))
    }

    /// A condition in parentheses.
    #[cycle(nested)]
    fn group(
        &self,
        at: u32,
        most: u32,
        depth: u32,
        count: u32,
    ) -> Result<(ConditionSyntax, u32, u32), ParseFault>
        requires within { at < length self.now.lexemes.now }
        requires opens { depth ≤ self.now.limits.nesting }
        requires begins { kind_at self.now.lexemes.now at ≡ code Open }
        ensures later { IfOk result (λ x. (at < x.1) × (x.1 ≤ length self.now.lexemes.now)) }
        ensures is { IfOk result (λ x. IsUnit self.now.text.now self.now.lexemes.now at (condition_tree x.0) x.1) }
        ensures reads { (below : List Symbol) →
            Answers (go self.now.limits self.now.lexemes.now at count (unit most depth ∷ below))
            (λ x. go self.now.limits self.now.lexemes.now x.1 x.2 below) result }
    {
        if depth >= self.limits.nesting {
            return Err(ParseFault::Deep(at));
        }
        let (inner, end, counted) = self.condition(at + 1, most, depth + 1, count)?;
        let (inner, next) = both(inner, self.expect(end, Terminal::Close))?;
        let whole = ConditionSyntax::group_of(self.alloc, at, inner)?;
        Ok((whole, next, counted))
    }

    /// A comparison.
    pub(crate) fn comparison(
        &self,
        at: u32,
        most: u32,
        depth: u32,
        count: u32,
    ) -> Result<(ConditionSyntax, u32, u32), ParseFault>
        requires within { at ≤ length self.now.lexemes.now }
        requires opens { depth ≤ self.now.limits.nesting }
        ensures later { IfOk result (λ x. (at < x.1) × (x.1 ≤ length self.now.lexemes.now)) }
        ensures is { IfOk result (λ x. IsUnit self.now.text.now self.now.lexemes.now at (condition_tree x.0) x.1) }
        ensures test { IfOk result (λ x. IsLevelWithin self.now.text.now self.now.lexemes.now at
            (condition_tree x.0) x.1) }
        ensures reads { (below : List Symbol) →
            Answers (go self.now.limits self.now.lexemes.now at count
            (operand depth depth 0 ∷ compare most depth ∷ below))
            (λ x. go self.now.limits self.now.lexemes.now x.1 x.2 below) result }
    {
        let (left, sign_at) = self.expression(at, depth)?;
        let compare = match self.compare(sign_at) {
            Some(compare) => compare,
            None => return Err(ParseFault::Unexpected(sign_at)),
        };
        if count >= most {
            return Err(ParseFault::Many(sign_at, most));
        }
        let (right, next) = self.expression(sign_at + 1, depth)?;
        Ok((
            ConditionSyntax::Test {
                sign_at,
                compare,
                left,
                right,
            },
            next,
            count + 1,
        ))
    }

    /// The symbol of a comparison that stands there.
    fn compare(&self, at: u32) -> Option<Cmp>
        ensures some { IfSome result (λ compare. kind_at self.now.lexemes.now at ≡ compare_word compare) }
        ensures inside { IfSome result (λ compare. at < length self.now.lexemes.now) }
        ensures none { IfNone result (is_compare (kind_at self.now.lexemes.now at) ≡ false) }
    {
        if self.has(at, Terminal::Equal) {
            Some(Cmp::Eq)
        } else if self.has(at, Terminal::Unequal) {
            Some(Cmp::Ne)
        } else if self.has(at, Terminal::Less) {
            Some(Cmp::Lt)
        } else if self.has(at, Terminal::AtMost) {
            Some(Cmp::Le)
        } else if self.has(at, Terminal::More) {
            Some(Cmp::Gt)
        } else if self.has(at, Terminal::AtLeast) {
            Some(Cmp::Ge)
        } else {
            None
        }
    }
}
