//! Reads whole policies, section by section.

ghost use Rattle.std.specs.Prelude.{None, ◌≡◌, ◌<◌, ◌≤◌, ◌+◌, ◌∷◌, [], ℕ, List, length, IfOk, map, option_map};
ghost use Rattle.policy_grammar.specs.declared.terminal.Terminal.TheVariants.{Name, Load, Filter, Choose};
ghost use Rattle.policy_grammar.specs.declared.terminal.Terminal.TheVariants.{Steal, Limit, Number};
ghost use Rattle.policy_grammar.specs.Terminals.{code, kind_at, value_at};
ghost use Rattle.policy_grammar.specs.Orders.{IsOrder};
ghost use Rattle.policy_grammar.specs.Policies.{IsBatch, IsPolicy};
ghost use Rattle.policy_grammar.specs.Symbols.{Symbol, the, load_rule, attrs, place, elect, handlers, condition, order};
ghost use Rattle.policy_grammar.specs.Symbols.{batch};
ghost use Rattle.policy_grammar.specs.Machine.{start, go};
ghost use Rattle.policy_syntax.specs.SyntaxTrees.{batch_syntax_tree, condition_tree, elect_syntax_tree};
ghost use Rattle.policy_syntax.specs.SyntaxTrees.{handler_syntax_tree, order_syntax_tree, syntax_tree};
ghost use Rattle.policy_parser.specs.Answers.{Answers};
ghost use Rattle.policy_parser.specs.Sections.{IsHeader, IsRules, IsFront, IsSteals, IsChoices, IsBack};

use crate::source::{Source, both};
use lists::Items;
use policy_grammar::{ParseFault, Terminal};
use policy_syntax::{
    AttrSyntax, BatchSyntax, ConditionSyntax, ElectSyntax, HandlerSyntax, LoadSyntax, OrderSyntax,
    PlaceSyntax, Syntax,
};
use policy_tree::Name;

/// What stands before the handlers.
#[derive(Drop)]
pub(crate) struct Front {
    pub(crate) name: Name,
    pub(crate) load: LoadSyntax,
    pub(crate) attrs: Items<AttrSyntax>,
    pub(crate) place: Option<PlaceSyntax>,
    pub(crate) elect: Option<ElectSyntax>,
}

/// The handlers, and what stands behind them.
#[derive(Drop)]
struct Back {
    handlers: Items<HandlerSyntax>,
    filter_at: u32,
    filter: ConditionSyntax,
    choose_at: u32,
    choose: OrderSyntax,
    steal_at: u32,
    steal: OrderSyntax,
    batch: Option<BatchSyntax>,
}

impl<'a> Source<'a> {
    /// The policy that the tokens are.
    pub(crate) fn policy(&self) -> Result<Syntax, ParseFault>
        ensures is { IfOk result (λ s. IsPolicy self.now.text.now self.now.lexemes.now (syntax_tree s)) }
        ensures reads { Answers (go self.now.limits self.now.lexemes.now 0 0 (start self.now.limits))
            (λ s. None) result }
    {
        let (front, handlers_at) = self.front(Terminal::Policy)?;
        let (front, back) = both(front, self.back(handlers_at))?;
        Ok(Syntax {
            name: front.name,
            load: front.load,
            attrs: front.attrs,
            place: front.place,
            elect: front.elect,
            handlers: back.handlers,
            filter_at: back.filter_at,
            filter: back.filter,
            choose_at: back.choose_at,
            choose: back.choose,
            steal_at: back.steal_at,
            steal: back.steal,
            batch: back.batch,
        })
    }

    /// What stands before the handlers, from that word on, and the place behind it.
    pub(crate) fn front(&self, word: Terminal) -> Result<(Front, u32), ParseFault>
        requires real { 0 < code word }
        ensures within { IfOk result (λ x. x.1 ≤ length self.now.lexemes.now) }
        ensures is { IfOk result (λ x.
            IsFront self.now.text.now self.now.lexemes.now word x.0.name x.0.load x.0.attrs x.0.place
            (option_map elect_syntax_tree x.0.elect) x.1) }
        ensures reads { (below : List Symbol) →
            Answers (go self.now.limits self.now.lexemes.now 0 0
            (the word ∷ the Name ∷ the Load ∷ load_rule ∷ attrs 0 0 ∷ place ∷ elect ∷ below))
            (λ x. go self.now.limits self.now.lexemes.now x.1 0 below) result }
    {
        let (name, load, attrs_at) = self.header(word)?;
        let (attrs, place_at) = self.attrs(attrs_at)?;
        let (place, elect, next) = self.rules(place_at)?;
        Ok((
            Front {
                name,
                load,
                attrs,
                place,
                elect,
            },
            next,
        ))
    }

    /// That word, the name, what a thread adds to the load of its core, and the place behind them.
    fn header(&self, word: Terminal) -> Result<(Name, LoadSyntax, u32), ParseFault>
        requires real { 0 < code word }
        ensures within { IfOk result (λ x. x.2 ≤ length self.now.lexemes.now) }
        ensures is { IfOk result (λ x. IsHeader self.now.text.now self.now.lexemes.now word x.0 x.1 x.2) }
        ensures reads { (below : List Symbol) →
            Answers (go self.now.limits self.now.lexemes.now 0 0 (the word ∷ the Name ∷ the Load ∷ load_rule ∷ below))
            (λ x. go self.now.limits self.now.lexemes.now x.2 0 below) result }
    {
        let name_at = self.expect(0, word)?;
        let (name, load_at) = self.name_at(name_at)?;
        let (load, next) = self.load(load_at)?;
        Ok((name, load, next))
    }

    /// The place rule and the order of election, as far as there are, and the place behind them.
    fn rules(&self, at: u32) -> Result<(Option<PlaceSyntax>, Option<ElectSyntax>, u32), ParseFault>
        requires within { at ≤ length self.now.lexemes.now }
        ensures within { IfOk result (λ x. x.2 ≤ length self.now.lexemes.now) }
        ensures is { IfOk result (λ x. IsRules self.now.text.now self.now.lexemes.now at x.0
            (option_map elect_syntax_tree x.1) x.2) }
        ensures reads { (below : List Symbol) →
            Answers (go self.now.limits self.now.lexemes.now at 0 (place ∷ elect ∷ below))
            (λ x. go self.now.limits self.now.lexemes.now x.2 0 below) result }
    {
        let (place, elect_at) = self.place(at)?;
        let (elect, next) = self.elect(elect_at)?;
        Ok((place, elect, next))
    }

    /// The handlers, the filter and the choices, behind which nothing stands.
    fn back(&self, at: u32) -> Result<Back, ParseFault>
        requires within { at ≤ length self.now.lexemes.now }
        ensures is { IfOk result (λ b. IsBack self.now.text.now self.now.lexemes.now at
            (map handler_syntax_tree b.handlers) b.filter_at
            (condition_tree b.filter) b.choose_at (order_syntax_tree b.choose) b.steal_at (order_syntax_tree b.steal)
            (option_map batch_syntax_tree b.batch)) }
        ensures reads { Answers (go self.now.limits self.now.lexemes.now at 0
            (handlers ∷ the Filter ∷ condition self.now.limits.comparisons ∷ the Choose ∷ order self.now.limits.keys ∷
            the Steal ∷ order self.now.limits.keys ∷ batch ∷ []))
            (λ b. None) result }
    {
        let (handlers, filter_at) = self.handlers(at)?;
        let guard_at = self.expect(filter_at, Terminal::Filter)?;
        let (filter, choose_at, _count) = self.condition(guard_at, self.limits.comparisons, 0, 0)?;
        let (filter, (choose, steal_at, steal, batch)) = both(
            filter,
            self.choices(choose_at, self.limits.keys),
        )?;
        Ok(Back {
            handlers,
            filter_at,
            filter,
            choose_at,
            choose,
            steal_at,
            steal,
            batch,
        })
    }

    /// The order of the cores to steal from, of at most so many keys, the place of the other, the order of the threads
    /// to steal, and the batch.
    pub(crate) fn choices(
        &self,
        at: u32,
        most: u32,
    ) -> Result<(OrderSyntax, u32, OrderSyntax, Option<BatchSyntax>), ParseFault>
        ensures is { IfOk result (λ x. IsChoices self.now.text.now self.now.lexemes.now at (order_syntax_tree x.0) x.1
            (order_syntax_tree x.2) (option_map batch_syntax_tree x.3)) }
        ensures reads { (count : ℕ) →
            Answers (go self.now.limits self.now.lexemes.now at count
            (the Choose ∷ order most ∷ the Steal ∷ order self.now.limits.keys ∷ batch ∷ []))
            (λ x. None) result }
    {
        let (choose, steal_at) = self.order_behind(at, Terminal::Choose, most)?;
        let (choose, (steal, batch)) = both(choose, self.steals(steal_at))?;
        Ok((choose, steal_at, steal, batch))
    }

    /// The order of the threads to steal and the batch, behind which nothing stands.
    fn steals(&self, at: u32) -> Result<(OrderSyntax, Option<BatchSyntax>), ParseFault>
        ensures is { IfOk result (λ x. IsSteals self.now.text.now self.now.lexemes.now at (order_syntax_tree x.0)
            (option_map batch_syntax_tree x.1)) }
        ensures reads { (count : ℕ) →
            Answers (go self.now.limits self.now.lexemes.now at count
            (the Steal ∷ order self.now.limits.keys ∷ batch ∷ []))
            (λ x. None) result }
    {
        let (steal, batch_at) = self.order_behind(at, Terminal::Steal, self.limits.keys)?;
        let (steal, (batch, end)) = both(steal, self.batch(batch_at))?;
        if (end as usize) < self.lexemes.len() {
            return Err(ParseFault::Unexpected(end));
        }
        Ok((steal, batch))
    }

    /// The batch, if there is one.
    fn batch(&self, at: u32) -> Result<(Option<BatchSyntax>, u32), ParseFault>
        requires within { at ≤ length self.now.lexemes.now }
        ensures within { IfOk result (λ x. x.1 ≤ length self.now.lexemes.now) }
        ensures is { IfOk result (λ x.
            IsBatch self.now.text.now self.now.lexemes.now at (option_map batch_syntax_tree x.0) x.1) }
        ensures reads { (below : List Symbol) →
            Answers (go self.now.limits self.now.lexemes.now at 0 (batch ∷ below))
            (λ x. go self.now.limits self.now.lexemes.now x.1 0 below) result }
    {
        if !self.has(at, Terminal::While) {
            return Ok((None, at));
        }
        let (condition, word_at, _count) = self.condition(at + 1, self.limits.comparisons, 0, 0)?;
        let (condition, (limit, next)) = both(condition, self.limit(word_at))?;
        Ok((
            Some(BatchSyntax {
                at,
                condition,
                limit_at: word_at + 1,
                limit,
            }),
            next,
        ))
    }

    /// The number behind `limit`, which must stand there.
    fn limit(&self, at: u32) -> Result<(u64, u32), ParseFault>
        ensures next { IfOk result (λ x. (x.1 ≡ at + 2) × (x.1 ≤ length self.now.lexemes.now)) }
        ensures begins { IfOk result (λ x. kind_at self.now.lexemes.now at ≡ code Limit) }
        ensures is { IfOk result (λ x. kind_at self.now.lexemes.now (at + 1) ≡ code Number) }
        ensures value { IfOk result (λ x. x.0 ≡ value_at self.now.lexemes.now (at + 1)) }
        ensures reads { (count : ℕ) (below : List Symbol) →
            Answers (go self.now.limits self.now.lexemes.now at count (the Limit ∷ the Number ∷ below))
            (λ x. go self.now.limits self.now.lexemes.now x.1 0 below) result }
    {
        let number_at = self.expect(at, Terminal::Limit)?;
        let next = self.expect(number_at, Terminal::Number)?;
        Ok((self.lexeme(number_at).value, next))
    }

    /// An order of at most so many keys behind that word.
    fn order_behind(
        &self,
        at: u32,
        word: Terminal,
        most: u32,
    ) -> Result<(OrderSyntax, u32), ParseFault>
        requires real { 0 < code word }
        ensures within { IfOk result (λ x. x.1 ≤ length self.now.lexemes.now) }
        ensures begins { IfOk result (λ x. kind_at self.now.lexemes.now at ≡ code word) }
        ensures is { IfOk result (λ x. IsOrder self.now.text.now self.now.lexemes.now (at + 1)
            (order_syntax_tree x.0) x.1) }
        ensures reads { (count : ℕ) (below : List Symbol) →
            Answers (go self.now.limits self.now.lexemes.now at count (the word ∷ order most ∷ below))
            (λ x. go self.now.limits self.now.lexemes.now x.1 0 below) result }
    {
        let order_at = self.expect(at, word)?;
        let (order, next) = self.order(order_at, most)?;
        Ok((order, next))
    }
}
