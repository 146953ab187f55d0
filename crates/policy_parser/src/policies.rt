//! Reads the declarations of a policy, and its rules of placing and electing.

ghost use Rattle.std.specs.Prelude.{◌≡◌, ◌==◌, ◌<◌, ◌≤◌, ◌+◌, ◌∷◌, ℕ, List, length, IfOk, IfSome, IfNone, IsTrue};
ghost use Rattle.std.specs.Prelude.{false, ◌^◌, ◌-◌, option_map};
ghost use Rattle.policy_syntax.specs.SyntaxTrees.{elect_syntax_tree};
ghost use Rattle.policy_grammar.specs.declared.terminal.Terminal.TheVariants.{Core, Thread, Load, Range, In, Start};
ghost use Rattle.policy_grammar.specs.declared.terminal.Terminal.TheVariants.{Name};
ghost use Rattle.policy_grammar.specs.Terminals.{code, kind_at, word_at};
ghost use Rattle.policy_grammar.specs.Words.{attr_word};
ghost use Rattle.policy_grammar.specs.Expressions.{IsInt, IsRange};
ghost use Rattle.policy_grammar.specs.Policies.{IsLoad, IsAttr, IsAttrs, IsPlace, IsElect};
ghost use Rattle.policy_grammar.specs.Symbols.{Symbol, the, int, load_rule, attrs, place, elect};
ghost use Rattle.policy_grammar.specs.Machine.{go};
ghost use Rattle.policy_grammar.specs.Breaks.{of_kind};
ghost use Rattle.policy_parser.specs.Answers.{Answers};

use crate::source::Source;
use lists::Items;
use policy_grammar::{ParseFault, Terminal};
use policy_syntax::{AttrSyntax, ElectSyntax, IntSyntax, LoadSyntax, PlaceSyntax, RangeSyntax};
use policy_tree::Name;

impl<'a> Source<'a> {
    /// A number that may have a sign.
    fn int(&self, at: u32) -> Result<(IntSyntax, u32), ParseFault>
        requires within { at ≤ length self.now.lexemes.now }
        ensures later { IfOk result (λ x. (at < x.1) × (x.1 ≤ length self.now.lexemes.now)) }
        ensures is { IfOk result (λ x. IsInt self.now.lexemes.now at x.0 x.1) }
        ensures reads { (below : List Symbol) →
            Answers (go self.now.limits self.now.lexemes.now at 0 (int ∷ below))
            (λ x. go self.now.limits self.now.lexemes.now x.1 0 below) result }
    {
        if self.has(at, Terminal::Number) {
            let value = self.lexeme(at).value;
            return Ok((
                IntSyntax {
                    at,
                    negative: false,
                    value,
                },
                at + 1,
            ));
        }
        if !self.has(at, Terminal::Minus) {
            return Err(ParseFault::Unexpected(at));
        }
        let next = self.expect(at + 1, Terminal::Number)?;
        let value = self.lexeme(at + 1).value;
        Ok((
            IntSyntax {
                at,
                negative: true,
                value,
            },
            next,
        ))
    }

    /// A range.
    fn range(&self, at: u32) -> Result<(RangeSyntax, u32), ParseFault>
        requires within { at ≤ length self.now.lexemes.now }
        ensures later { IfOk result (λ x. (at < x.1) × (x.1 ≤ length self.now.lexemes.now)) }
        ensures is { IfOk result (λ x. IsRange self.now.lexemes.now at x.0 x.1) }
        ensures reads { (below : List Symbol) →
            Answers (go self.now.limits self.now.lexemes.now at 0 (int ∷ the Range ∷ int ∷ below))
            (λ x. go self.now.limits self.now.lexemes.now x.1 0 below) result }
    {
        let (low, dots) = self.int(at)?;
        let high_at = self.expect(dots, Terminal::Range)?;
        let (high, next) = self.int(high_at)?;
        Ok((RangeSyntax { at, low, high }, next))
    }

    /// What a thread adds to the load of its core.
    pub(crate) fn load(&self, at: u32) -> Result<(LoadSyntax, u32), ParseFault>
        requires within { at ≤ length self.now.lexemes.now }
        ensures later { IfOk result (λ x. (at < x.1) × (x.1 ≤ length self.now.lexemes.now)) }
        ensures is { IfOk result (λ x. IsLoad self.now.lexemes.now at x.0 x.1) }
        ensures reads { (below : List Symbol) →
            Answers (go self.now.limits self.now.lexemes.now at 0 (the Load ∷ load_rule ∷ below))
            (λ x. go self.now.limits self.now.lexemes.now x.1 0 below) result }
    {
        let rule = self.expect(at, Terminal::Load)?;
        if self.has(rule, Terminal::Count) {
            return Ok((LoadSyntax::Count { at }, rule + 1));
        }
        if !self.has(rule, Terminal::Weight) {
            return Err(ParseFault::Unexpected(rule));
        }
        let (range, next) = self.range(rule + 1)?;
        Ok((LoadSyntax::Weight { at, range }, next))
    }

    /// An attribute, whose first word stands there.
    fn attr(&self, at: u32, of_cores: bool) -> Result<(AttrSyntax, u32), ParseFault>
        requires within { at < length self.now.lexemes.now }
        requires begins { kind_at self.now.lexemes.now at ≡ attr_word of_cores }
        ensures later { IfOk result (λ x. (at < x.1) × (x.1 ≤ length self.now.lexemes.now)) }
        ensures is { IfOk result (λ x. IsAttr self.now.text.now self.now.lexemes.now at x.0 x.1) }
        ensures kind { IfOk result (λ x. x.0.of_cores ≡ of_cores) }
        ensures reads { (below : List Symbol) →
            Answers (go self.now.limits self.now.lexemes.now (at + 1) 0
            (the Name ∷ the In ∷ int ∷ the Range ∷ int ∷ the Start ∷ int ∷ below))
            (λ x. go self.now.limits self.now.lexemes.now x.1 0 below) result }
    {
        let (name, in_at) = self.name_at(at + 1)?;
        let range_at = self.expect(in_at, Terminal::In)?;
        let (range, start_at) = self.range(range_at)?;
        let number_at = self.expect(start_at, Terminal::Start)?;
        let (start, next) = self.int(number_at)?;
        Ok((
            AttrSyntax {
                at,
                of_cores,
                name,
                range,
                start,
            },
            next,
        ))
    }

    /// A name that must stand there: a word that isn't reserved.
    pub(crate) fn name_at(&self, at: u32) -> Result<(Name, u32), ParseFault>
        ensures next { IfOk result (λ x. (x.1 ≡ at + 1) × (x.1 ≤ length self.now.lexemes.now)) }
        ensures is { IfOk result (λ x. kind_at self.now.lexemes.now at ≡ code Name) }
        ensures word { IfOk result (λ x. x.0 ≡ word_at self.now.text.now self.now.lexemes.now at) }
        ensures reads { (count : ℕ) (below : List Symbol) →
            Answers (go self.now.limits self.now.lexemes.now at count (the Name ∷ below))
            (λ x. go self.now.limits self.now.lexemes.now x.1 0 below) result }
    {
        let next = self.expect(at, Terminal::Name)?;
        let name = self.name(at)?;
        Ok((name, next))
    }

    /// The place rule, if there is one.
    pub(crate) fn place(&self, at: u32) -> Result<(Option<PlaceSyntax>, u32), ParseFault>
        requires within { at ≤ length self.now.lexemes.now }
        ensures later { IfOk result (λ x. (at ≤ x.1) × (x.1 ≤ length self.now.lexemes.now)) }
        ensures is { IfOk result (λ x. IsPlace self.now.text.now self.now.lexemes.now at x.0 x.1) }
        ensures reads { (below : List Symbol) →
            Answers (go self.now.limits self.now.lexemes.now at 0 (place ∷ below))
            (λ x. go self.now.limits self.now.lexemes.now x.1 0 below) result }
    {
        if !self.has(at, Terminal::Place) {
            return Ok((None, at));
        }
        if self.has(at + 1, Terminal::Here) {
            return Ok((Some(PlaceSyntax::Here { at }), at + 2));
        }
        if !self.has(at + 1, Terminal::Min) {
            return Err(ParseFault::Unexpected(at + 1));
        }
        let (value, next) = self.expression(at + 2, 0)?;
        Ok((Some(PlaceSyntax::Least { at, value }), next))
    }

    /// The order of election, if there is one.
    pub(crate) fn elect(&self, at: u32) -> Result<(Option<ElectSyntax>, u32), ParseFault>
        requires within { at ≤ length self.now.lexemes.now }
        ensures later { IfOk result (λ x. (at ≤ x.1) × (x.1 ≤ length self.now.lexemes.now)) }
        ensures is { IfOk result
            (λ x. IsElect self.now.text.now self.now.lexemes.now at (option_map elect_syntax_tree x.0) x.1) }
        ensures reads { (below : List Symbol) →
            Answers (go self.now.limits self.now.lexemes.now at 0 (elect ∷ below))
            (λ x. go self.now.limits self.now.lexemes.now x.1 0 below) result }
    {
        if !self.has(at, Terminal::Elect) {
            return Ok((None, at));
        }
        let (order, next) = self.order(at + 1, self.limits.keys)?;
        Ok((Some(ElectSyntax { at, order }), next))
    }

    /// The attributes that stand there.
    pub(crate) fn attrs(&self, at: u32) -> Result<(Items<AttrSyntax>, u32), ParseFault>
        requires within { at ≤ length self.now.lexemes.now }
        ensures later { IfOk result (λ x. (at ≤ x.1) × (x.1 ≤ length self.now.lexemes.now)) }
        ensures is { IfOk result (λ x. IsAttrs self.now.text.now self.now.lexemes.now at x.0 x.1) }
        ensures reads { (below : List Symbol) →
            Answers (go self.now.limits self.now.lexemes.now at 0 (attrs 0 0 ∷ below))
            (λ x. go self.now.limits self.now.lexemes.now x.1 0 below) result }
    {
        let mut attrs = Vec::new(self.alloc);
        let mut next = at;
        let mut cores = 0;
        let mut threads = 0;
        'attrs: loop {
            let of_cores = match self.attr_word(next) {
                Some(of_cores) => of_cores,
                None => return Ok((Items::from_vec(attrs), next)),
            };
            let count = count_of_kind(of_cores, cores, threads);
            if count >= self.limits.attrs {
                return Err(ParseFault::Many(next, self.limits.attrs));
            }
            let (attr, after) = self.attr(next, of_cores)?;
            attrs.push(attr)?;
            next = after;
            cores = one_more(of_cores, cores);
            threads = one_more(!of_cores, threads);
        }
    }

    /// Whether the word that stands there declares an attribute of cores, and not one of threads.
    fn attr_word(&self, at: u32) -> Option<bool>
        ensures some { IfSome result (λ of_cores. kind_at self.now.lexemes.now at ≡ attr_word of_cores) }
        ensures inside { IfSome result (λ of_cores. at < length self.now.lexemes.now) }
        ensures cores { IfNone result ((kind_at self.now.lexemes.now at == code Core) ≡ false) }
        ensures threads { IfNone result ((kind_at self.now.lexemes.now at == code Thread) ≡ false) }
    {
        if self.has(at, Terminal::Core) {
            Some(true)
        } else if self.has(at, Terminal::Thread) {
            Some(false)
        } else {
            None
        }
    }
}

/// How many attributes of that kind there are.
fn count_of_kind(of_cores: bool, cores: u32, threads: u32) -> u32
    ensures { result ≡ of_kind of_cores cores threads }
{
    if of_cores { cores } else { threads }
}

/// The count, and one more where it is of that kind.
fn one_more(is_one: bool, count: u32) -> u32
    requires { count < 2 ^ 32 - 1 }
    ensures yes { IsTrue is_one → result ≡ count + 1 }
    ensures no { is_one ≡ false → result ≡ count }
{
    if is_one { count + 1 } else { count }
}
