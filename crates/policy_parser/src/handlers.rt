//! Reads the handlers of a policy.

ghost use Rattle.std.specs.Prelude.{◌≡◌, ◌<◌, ◌≤◌, ◌+◌, ◌∷◌, [], List, length, IfOk, IfSome, IfNone, false, map};
ghost use Rattle.policy_grammar.specs.declared.terminal.Terminal.TheVariants.{On, Task, Dot, Gets, Comma, Colon};
ghost use Rattle.policy_grammar.specs.Terminals.{code, kind_at};
ghost use Rattle.policy_grammar.specs.Words.{put_word, event_word};
ghost use Rattle.policy_grammar.specs.Policies.{IsCase, IsHandler, IsHandlers, IsSets};
ghost use Rattle.policy_grammar.specs.Symbols.{Symbol, the, actions, case, cases, handlers, is_put, is_event, field};
ghost use Rattle.policy_grammar.specs.Symbols.{operand, unit, ands, ors};
ghost use Rattle.policy_grammar.specs.Machine.{go};
ghost use Rattle.policy_syntax.specs.SyntaxTrees.{case_syntax_tree, condition_tree, handler_syntax_tree};
ghost use Rattle.policy_parser.specs.Answers.{Answers};
ghost use Rattle.policy_parser.specs.Cases.{Cased};
ghost use Rattle.policy_parser.specs.Sections.{IsGuard};

use crate::source::{Source, both};
use lists::Items;
use policy_grammar::{ParseFault, Terminal};
use policy_syntax::{CaseSyntax, ConditionSyntax, HandlerSyntax, SetSyntax};
use policy_tree::{Event, Put};

impl<'a> Source<'a> {
    /// An assignment, whose `t` stands there, and the comma behind it.
    fn set(&self, at: u32) -> Result<(SetSyntax, u32), ParseFault>
        requires within { at < length self.now.lexemes.now }
        ensures later { IfOk result (λ x. (at < x.1) × (x.1 ≤ length self.now.lexemes.now)) }
        ensures is { kind_at self.now.lexemes.now at ≡ code Task →
            IfOk result (λ x. IsSets self.now.text.now self.now.lexemes.now at (x.0 ∷ []) x.1) }
        ensures reads { (below : List Symbol) →
            Answers (go self.now.limits self.now.lexemes.now (at + 1) 0
            (the Dot ∷ field ∷ the Gets ∷ operand 0 0 0 ∷ the Comma ∷ below))
            (λ x. go self.now.limits self.now.lexemes.now x.1 0 below) result }
    {
        let word_at = self.expect(at + 1, Terminal::Dot)?;
        let (word, gets_at) = self.word(word_at)?;
        let value_at = self.expect(gets_at, Terminal::Gets)?;
        let (value, comma_at) = self.expression(value_at, 0)?;
        let next = self.expect(comma_at, Terminal::Comma)?;
        Ok((SetSyntax { at, word, value }, next))
    }

    /// The assignments that stand there, the place of the word that puts the thread, and what it says.
    fn actions(&self, at: u32) -> Result<(Items<SetSyntax>, u32, Put), ParseFault>
        requires within { at ≤ length self.now.lexemes.now }
        ensures later { IfOk result (λ x. (at ≤ x.1) × (x.1 < length self.now.lexemes.now)) }
        ensures is { IfOk result (λ x. IsSets self.now.text.now self.now.lexemes.now at x.0 x.1) }
        ensures puts { IfOk result (λ x. kind_at self.now.lexemes.now x.1 ≡ put_word x.2) }
        ensures reads { (below : List Symbol) →
            Answers (go self.now.limits self.now.lexemes.now at 0 (actions 0 ∷ below))
            (λ x. go self.now.limits self.now.lexemes.now (x.1 + 1) 0 below) result }
    {
        let mut sets = Vec::new(self.alloc);
        let mut next = at;
        let mut count = 0;
        'sets: while self.has(next, Terminal::Task) {
            if count >= self.limits.sets {
                return Err(ParseFault::Many(next, self.limits.sets));
            }
            let (set, after) = self.set(next)?;
            sets.push(set)?;
            next = after;
            count += 1;
        }
        match self.put(next) {
            Some(put) => Ok((Items::from_vec(sets), next, put)),
            None => Err(ParseFault::Unexpected(next)),
        }
    }

    /// Where the word that stands there puts the thread.
    fn put(&self, at: u32) -> Option<Put>
        ensures some { IfSome result (λ put. kind_at self.now.lexemes.now at ≡ put_word put) }
        ensures inside { IfSome result (λ put. at < length self.now.lexemes.now) }
        ensures none { IfNone result (is_put (kind_at self.now.lexemes.now at) ≡ false) }
    {
        if self.has(at, Terminal::Queue) {
            Some(Put::Queue)
        } else if self.has(at, Terminal::Keep) {
            Some(Put::Keep)
        } else if self.has(at, Terminal::Block) {
            Some(Put::Block)
        } else {
            None
        }
    }

    /// A case of a handler that has so many before it.
    fn case(&self, at: u32, before: u32) -> Result<(CaseSyntax, u32), ParseFault>
        requires within { at ≤ length self.now.lexemes.now }
        ensures later { IfOk result (λ x. (at < x.1) × (x.1 ≤ length self.now.lexemes.now)) }
        ensures is { IfOk result (λ x. IsCase self.now.text.now self.now.lexemes.now at (case_syntax_tree x.0) x.1) }
        ensures reads { (below : List Symbol) →
            Answers (go self.now.limits self.now.lexemes.now at 0 (case before ∷ below))
            (λ x. go self.now.limits self.now.lexemes.now x.1 0 (cases (before + 1) ∷ below)) result }
    {
        if !self.has(at, Terminal::When) {
            return Err(ParseFault::Unexpected(at));
        }
        if before >= self.limits.cases {
            return Err(ParseFault::Many(at, self.limits.cases));
        }
        let (guard, sets_at) = self.guard(at + 1)?;
        let (guard, (sets, put_at, put)) = both(guard, self.actions(sets_at))?;
        Ok((
            CaseSyntax {
                at,
                guard,
                sets,
                put_at,
                put,
            },
            put_at + 1,
        ))
    }

    /// The condition of a case, and the colon behind it.
    fn guard(&self, at: u32) -> Result<(ConditionSyntax, u32), ParseFault>
        requires within { at ≤ length self.now.lexemes.now }
        ensures later { IfOk result (λ x. (at < x.1) × (x.1 ≤ length self.now.lexemes.now)) }
        ensures is { IfOk result (λ x. IsGuard self.now.text.now self.now.lexemes.now at (condition_tree x.0) x.1) }
        ensures reads { (below : List Symbol) →
            Answers (go self.now.limits self.now.lexemes.now at 0
            (unit self.now.limits.comparisons 0 ∷ ands self.now.limits.comparisons 0 ∷
            ors self.now.limits.comparisons 0 ∷ the Colon ∷ below))
            (λ x. go self.now.limits self.now.lexemes.now x.1 0 below) result }
    {
        let (guard, colon_at, _count) = self.condition(at, self.limits.comparisons, 0, 0)?;
        let (guard, next) = both(guard, self.expect(colon_at, Terminal::Colon))?;
        Ok((guard, next))
    }

    /// The cases that stand there, of which there is one at least.
    fn cases(&self, at: u32) -> Result<(Items<CaseSyntax>, u32), ParseFault>
        requires within { at ≤ length self.now.lexemes.now }
        ensures later { IfOk result (λ x. (at < x.1) × (x.1 ≤ length self.now.lexemes.now)) }
        ensures is { IfOk result (λ x. Cased self.now.text.now self.now.lexemes.now x.0 at x.1) }
        ensures reads { (below : List Symbol) →
            Answers (go self.now.limits self.now.lexemes.now at 0 (case 0 ∷ below))
            (λ x. go self.now.limits self.now.lexemes.now x.1 0 below) result }
    {
        let (first, mut next) = self.case(at, 0)?;
        let mut cases = Vec::new(self.alloc);
        cases.push(first)?;
        let mut count = 1;
        'cases: while self.has(next, Terminal::When) {
            let (case, after) = self.case(next, count)?;
            cases.push(case)?;
            next = after;
            count += 1;
        }
        Ok((Items::from_vec(cases), next))
    }

    /// A handler, whose `on` stands there.
    fn handler(&self, at: u32) -> Result<(HandlerSyntax, u32), ParseFault>
        requires within { at < length self.now.lexemes.now }
        requires begins { kind_at self.now.lexemes.now at ≡ code On }
        ensures later { IfOk result (λ x. (at < x.1) × (x.1 ≤ length self.now.lexemes.now)) }
        ensures is { IfOk result (λ x. IsHandler self.now.text.now self.now.lexemes.now at
            (handler_syntax_tree x.0) x.1) }
        ensures reads { (below : List Symbol) →
            Answers (go self.now.limits self.now.lexemes.now at 0 (handlers ∷ below))
            (λ x. go self.now.limits self.now.lexemes.now x.1 0 (handlers ∷ below)) result }
    {
        let event = match self.event(at + 1) {
            Some(event) => event,
            None => return Err(ParseFault::Unexpected(at + 1)),
        };
        let cases_at = self.expect(at + 2, Terminal::Begin)?;
        let (cases, end) = self.cases(cases_at)?;
        let next = self.expect(end, Terminal::Finish)?;
        Ok((HandlerSyntax { at, event, cases }, next))
    }

    /// The event that stands there.
    fn event(&self, at: u32) -> Option<Event>
        ensures some { IfSome result (λ event. kind_at self.now.lexemes.now at ≡ event_word event) }
        ensures inside { IfSome result (λ event. at < length self.now.lexemes.now) }
        ensures none { IfNone result (is_event (kind_at self.now.lexemes.now at) ≡ false) }
    {
        if self.has(at, Terminal::Enqueue) {
            Some(Event::Enqueue)
        } else if self.has(at, Terminal::Tick) {
            Some(Event::Tick)
        } else if self.has(at, Terminal::Yield) {
            Some(Event::Yield)
        } else if self.has(at, Terminal::Block) {
            Some(Event::Block)
        } else {
            None
        }
    }

    /// The handlers that stand there.
    pub(crate) fn handlers(&self, at: u32) -> Result<(Items<HandlerSyntax>, u32), ParseFault>
        requires within { at ≤ length self.now.lexemes.now }
        ensures later { IfOk result (λ x. (at ≤ x.1) × (x.1 ≤ length self.now.lexemes.now)) }
        ensures is { IfOk result (λ x. IsHandlers self.now.text.now self.now.lexemes.now at
            (map handler_syntax_tree x.0) x.1) }
        ensures reads { (below : List Symbol) →
            Answers (go self.now.limits self.now.lexemes.now at 0 (handlers ∷ below))
            (λ x. go self.now.limits self.now.lexemes.now x.1 0 below) result }
    {
        let mut handlers = Vec::new(self.alloc);
        let mut next = at;
        'handlers: while self.has(next, Terminal::On) {
            let (handler, after) = self.handler(next)?;
            handlers.push(handler)?;
            next = after;
        }
        Ok((Items::from_vec(handlers), next))
    }
}
