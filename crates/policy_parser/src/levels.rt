//! Reads whole level texts.

ghost use Rattle.std.specs.Prelude.{None, ◌≡◌, ◌<◌, ◌≤◌, ◌+◌, ◌∷◌, [], ℕ, List, length, IfOk, map, option_map};
ghost use Rattle.policy_grammar.specs.declared.terminal.Terminal.TheVariants.{Filter, Choose, Steal};
ghost use Rattle.policy_grammar.specs.Terminals.{code, kind_at};
ghost use Rattle.policy_grammar.specs.Conditions.{IsCondition};
ghost use Rattle.policy_grammar.specs.Levels.{IsLevelWithin, IsLevel, IsLevels};
ghost use Rattle.policy_grammar.specs.Symbols.{Symbol, the, handlers, level, levels, within, condition, order, batch};
ghost use Rattle.policy_grammar.specs.Machine.{level_start, go};
ghost use Rattle.policy_syntax.specs.LevelTrees.{level_syntax_tree, one_level_syntax_tree};
ghost use Rattle.policy_syntax.specs.SyntaxTrees.{batch_syntax_tree, condition_tree, handler_syntax_tree};
ghost use Rattle.policy_syntax.specs.SyntaxTrees.{order_syntax_tree};
ghost use Rattle.policy_parser.specs.Answers.{Answers};
ghost use Rattle.policy_parser.specs.LevelSections.{IsLevelBack, Leveled};

use crate::source::{Source, both};
use lists::Items;
use policy_grammar::{ParseFault, Terminal};
use policy_syntax::{
    BatchSyntax, ConditionSyntax, HandlerSyntax, LevelSyntax, OneLevelSyntax, OrderSyntax,
};

/// The handlers, and what stands behind them.
#[derive(Drop)]
struct LevelBack {
    handlers: Items<HandlerSyntax>,
    levels: Items<OneLevelSyntax>,
    choose_at: u32,
    choose: OrderSyntax,
    steal_at: u32,
    steal: OrderSyntax,
    batch: Option<BatchSyntax>,
}

impl<'a> Source<'a> {
    /// The level text that the tokens are.
    pub(crate) fn level_text(&self) -> Result<LevelSyntax, ParseFault>
        ensures is { IfOk result (λ s. IsLevels self.now.text.now self.now.lexemes.now (level_syntax_tree s)) }
        ensures reads { Answers (go self.now.limits self.now.lexemes.now 0 0 (level_start self.now.limits))
            (λ s. None) result }
    {
        let (front, handlers_at) = self.front(Terminal::Levels)?;
        let (front, back) = both(front, self.level_back(handlers_at))?;
        Ok(LevelSyntax {
            name: front.name,
            load: front.load,
            attrs: front.attrs,
            place: front.place,
            elect: front.elect,
            handlers: back.handlers,
            levels: back.levels,
            choose_at: back.choose_at,
            choose: back.choose,
            steal_at: back.steal_at,
            steal: back.steal,
            batch: back.batch,
        })
    }

    /// The handlers, the levels and the choices, behind which nothing stands.
    fn level_back(&self, at: u32) -> Result<LevelBack, ParseFault>
        requires within { at ≤ length self.now.lexemes.now }
        ensures is { IfOk result (λ b. IsLevelBack self.now.text.now self.now.lexemes.now at
            (map handler_syntax_tree b.handlers) (map one_level_syntax_tree b.levels) b.choose_at
            (order_syntax_tree b.choose) b.steal_at (order_syntax_tree b.steal)
            (option_map batch_syntax_tree b.batch)) }
        ensures reads { Answers (go self.now.limits self.now.lexemes.now at 0
            (handlers ∷ level 0 ∷ the Choose ∷ order self.now.limits.level_keys ∷ the Steal ∷
            order self.now.limits.keys ∷ batch ∷ []))
            (λ b. None) result }
    {
        let (handlers, levels_at) = self.handlers(at)?;
        let (levels, choose_at) = self.levels(levels_at)?;
        let (levels, (choose, steal_at, steal, batch)) = both(
            levels,
            self.choices(choose_at, self.limits.level_keys),
        )?;
        Ok(LevelBack {
            handlers,
            levels,
            choose_at,
            choose,
            steal_at,
            steal,
            batch,
        })
    }

    /// The levels that stand there, of which there is one at least.
    fn levels(&self, at: u32) -> Result<(Items<OneLevelSyntax>, u32), ParseFault>
        requires within { at ≤ length self.now.lexemes.now }
        ensures later { IfOk result (λ x. (at < x.1) × (x.1 ≤ length self.now.lexemes.now)) }
        ensures is { IfOk result (λ x. Leveled self.now.text.now self.now.lexemes.now x.0 at x.1) }
        ensures reads { (below : List Symbol) →
            Answers (go self.now.limits self.now.lexemes.now at 0 (level 0 ∷ below))
            (λ x. go self.now.limits self.now.lexemes.now x.1 0 below) result }
    {
        let (first, mut next) = self.level(at, 0)?;
        let mut levels = Vec::new(self.alloc);
        levels.push(first)?;
        let mut count = 1;
        'levels: while self.has(next, Terminal::Level) {
            let (level, after) = self.level(next, count)?;
            levels.push(level)?;
            next = after;
            count += 1;
        }
        Ok((Items::from_vec(levels), next))
    }

    /// A level that has so many before it.
    fn level(&self, at: u32, before: u32) -> Result<(OneLevelSyntax, u32), ParseFault>
        requires within { at ≤ length self.now.lexemes.now }
        ensures later { IfOk result (λ x. (at < x.1) × (x.1 ≤ length self.now.lexemes.now)) }
        ensures is { IfOk result (λ x.
            IsLevel self.now.text.now self.now.lexemes.now at (one_level_syntax_tree x.0) x.1) }
        ensures reads { (below : List Symbol) →
            Answers (go self.now.limits self.now.lexemes.now at 0 (level before ∷ below))
            (λ x. go self.now.limits self.now.lexemes.now x.1 0 (levels (before + 1) ∷ below)) result }
    {
        if !self.has(at, Terminal::Level) {
            return Err(ParseFault::Unexpected(at));
        }
        if before >= self.limits.levels {
            return Err(ParseFault::Many(at, self.limits.levels));
        }
        let within_at = self.expect(at + 1, Terminal::Within)?;
        let (within, filter_at, _count) = self.within(within_at)?;
        let (within, (filter, next)) = both(within, self.level_filter(filter_at))?;
        Ok((
            OneLevelSyntax {
                at,
                within,
                filter_at,
                filter,
            },
            next,
        ))
    }

    /// What stands behind `within`, and how many comparisons it has.
    fn within(&self, at: u32) -> Result<(ConditionSyntax, u32, u32), ParseFault>
        requires within { at ≤ length self.now.lexemes.now }
        ensures later { IfOk result (λ x. (at < x.1) × (x.1 ≤ length self.now.lexemes.now)) }
        ensures is { IfOk result (λ x.
            IsLevelWithin self.now.text.now self.now.lexemes.now at (condition_tree x.0) x.1) }
        ensures reads { (below : List Symbol) →
            Answers (go self.now.limits self.now.lexemes.now at 0 (within ∷ below))
            (λ x. go self.now.limits self.now.lexemes.now x.1 x.2 below) result }
    {
        if self.has(at, Terminal::Always) {
            return Ok((ConditionSyntax::Always { at }, at + 1, 0));
        }
        self.comparison(at, 1, 0, 0)
    }

    /// `filter` and the condition of a level.
    fn level_filter(&self, at: u32) -> Result<(ConditionSyntax, u32), ParseFault>
        ensures later { IfOk result (λ x. (at < x.1) × (x.1 ≤ length self.now.lexemes.now)) }
        ensures begins { IfOk result (λ x. kind_at self.now.lexemes.now at ≡ code Filter) }
        ensures is { IfOk result (λ x.
            IsCondition self.now.text.now self.now.lexemes.now (at + 1) (condition_tree x.0) x.1) }
        ensures reads { (count before : ℕ) (below : List Symbol) →
            Answers (go self.now.limits self.now.lexemes.now at count
            (the Filter ∷ condition self.now.limits.level_comparisons ∷ levels before ∷ below))
            (λ x. go self.now.limits self.now.lexemes.now x.1 0 (levels before ∷ below)) result }
    {
        let guard_at = self.expect(at, Terminal::Filter)?;
        let (filter, next, _count) = self.condition(guard_at, self.limits.level_comparisons, 0, 0)?;
        Ok((filter, next))
    }
}
