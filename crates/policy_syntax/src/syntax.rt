//! The syntax of a policy's text: a node for each production that the text has. The field `at` of a node is the
//! index of its first token, from 0; nodes that stand for an operator have the operator's.

ghost use Rattle.std.specs.Prelude.{◌≡◌, IfOk};

use lists::Items;
use policy_tree::{Cmp, Event, Name, Put};
use std::alloc::{AllocError, Global};

/// A whole policy. Parts that may be left out and are have `None`, or an empty list.
#[derive(Drop)]
pub struct Syntax {
    pub name: Name,
    pub load: LoadSyntax,
    pub attrs: Items<AttrSyntax>,
    pub place: Option<PlaceSyntax>,
    pub elect: Option<ElectSyntax>,
    pub handlers: Items<HandlerSyntax>,
    pub filter_at: u32,
    pub filter: ConditionSyntax,
    pub choose_at: u32,
    pub choose: OrderSyntax,
    pub steal_at: u32,
    pub steal: OrderSyntax,
    pub batch: Option<BatchSyntax>,
}

/// `load count`, or `load weight` and a range.
#[derive(Clone, Copy)]
pub enum LoadSyntax {
    Count { at: u32 },
    Weight { at: u32, range: RangeSyntax },
}

/// A range: its ends, both of them in it.
#[derive(Clone, Copy)]
pub struct RangeSyntax {
    pub at: u32,
    pub low: IntSyntax,
    pub high: IntSyntax,
}

/// A number that may have a sign before it.
#[derive(Clone, Copy)]
pub struct IntSyntax {
    pub at: u32,
    pub negative: bool,
    pub value: u64,
}

/// An attribute of cores or of threads.
#[derive(Drop)]
pub struct AttrSyntax {
    pub at: u32,
    /// Whether it is one of cores.
    pub of_cores: bool,
    pub name: Name,
    pub range: RangeSyntax,
    pub start: IntSyntax,
}

/// `place here`, or `place min` and an expression.
#[derive(Drop)]
pub enum PlaceSyntax {
    Here { at: u32 },
    Least { at: u32, value: ExprSyntax },
}

/// `elect` and an order.
#[derive(Drop)]
pub struct ElectSyntax {
    pub at: u32,
    pub order: OrderSyntax,
}

/// An order: its keys, none for `first`.
#[derive(Drop)]
pub struct OrderSyntax {
    pub at: u32,
    pub keys: Items<KeySyntax>,
}

/// A key of an order.
#[derive(Drop)]
pub enum KeySyntax {
    /// `max` if it is the greatest, else `min`, and an expression.
    Ranked {
        at: u32,
        greatest: bool,
        value: ExprSyntax,
    },
    /// `prefer` and a condition.
    Preferring {
        at: u32,
        condition: ConditionSyntax,
    },
}

/// `while`, a condition, `limit` and a number.
#[derive(Drop)]
pub struct BatchSyntax {
    pub at: u32,
    pub condition: ConditionSyntax,
    /// The token of the number.
    pub limit_at: u32,
    /// The number as it stands in the text.
    pub limit: u64,
}

/// `on`, an event and its cases.
#[derive(Drop)]
pub struct HandlerSyntax {
    pub at: u32,
    pub event: Event,
    pub cases: Items<CaseSyntax>,
}

/// `when`, a condition, the assignments and where the thread is put.
#[derive(Drop)]
pub struct CaseSyntax {
    pub at: u32,
    pub guard: ConditionSyntax,
    pub sets: Items<SetSyntax>,
    pub put_at: u32,
    pub put: Put,
}

/// `t.`, a word, `=` and an expression.
#[derive(Drop)]
pub struct SetSyntax {
    pub at: u32,
    pub word: Name,
    pub value: ExprSyntax,
}

/// A condition. `And` joins two units or more, `Or` two conjunctions or more; both group to the left.
#[derive(Drop)]
pub enum ConditionSyntax {
    Always {
        at: u32,
    },
    Not {
        at: u32,
        inner: Box<ConditionSyntax>,
    },
    /// A condition in parentheses.
    Group {
        at: u32,
        inner: Box<ConditionSyntax>,
    },
    And {
        at: u32,
        parts: Vec<ConditionSyntax>,
    },
    Or {
        at: u32,
        parts: Vec<ConditionSyntax>,
    },
    /// A comparison, whose symbol is token number `sign_at`.
    Test {
        sign_at: u32,
        compare: Cmp,
        left: ExprSyntax,
        right: ExprSyntax,
    },
}

impl ConditionSyntax {
    ghost use Rattle.policy_syntax.specs.SyntaxTrees.{ConditionTree, condition_tree, condition_trees};

    /// The parts joined by `and`.
    pub fn all_of(at: u32, parts: Vec<ConditionSyntax>) -> ConditionSyntax
        ensures { condition_tree result ≡ ConditionTree.all at (condition_trees parts.items) }
    {
        ConditionSyntax::And { at, parts }
    }

    /// The parts joined by `or`.
    pub fn any_of(at: u32, parts: Vec<ConditionSyntax>) -> ConditionSyntax
        ensures { condition_tree result ≡ ConditionTree.any at (condition_trees parts.items) }
    {
        ConditionSyntax::Or { at, parts }
    }

    /// `not` before a unit.
    pub fn not_of(
        alloc: Global,
        at: u32,
        inner: ConditionSyntax,
    ) -> Result<ConditionSyntax, AllocError>
        ensures { IfOk result (λ v. condition_tree v ≡ ConditionTree.negated at (condition_tree inner)) }
    {
        Ok(ConditionSyntax::Not {
            at,
            inner: Box::new(alloc, inner)?,
        })
    }

    /// A condition in parentheses.
    pub fn group_of(
        alloc: Global,
        at: u32,
        inner: ConditionSyntax,
    ) -> Result<ConditionSyntax, AllocError>
        ensures { IfOk result (λ v. condition_tree v ≡ ConditionTree.grouped at (condition_tree inner)) }
    {
        Ok(ConditionSyntax::Group {
            at,
            inner: Box::new(alloc, inner)?,
        })
    }
}

/// A first term, and terms that are added to it or taken from it, from left to right.
#[derive(Drop)]
pub struct ExprSyntax {
    pub at: u32,
    pub first: TermSyntax,
    pub rest: Items<AddedSyntax>,
}

/// `+` or `-`, and a term.
#[derive(Drop)]
pub struct AddedSyntax {
    pub at: u32,
    /// Whether it is `-`.
    pub minus: bool,
    pub term: TermSyntax,
}

/// A first factor, and factors by which it is multiplied, from left to right.
#[derive(Drop)]
pub struct TermSyntax {
    pub at: u32,
    pub first: FactorSyntax,
    pub rest: Items<TimesSyntax>,
}

/// `*` and a factor.
#[derive(Drop)]
pub struct TimesSyntax {
    pub at: u32,
    pub factor: FactorSyntax,
}

/// A number or a reference, with so many signs `-` before it. Each sign with what follows is a factor of its own.
#[derive(Drop)]
pub struct FactorSyntax {
    pub at: u32,
    pub signs: u32,
    pub operand: OperandSyntax,
}

/// What a factor is without its signs.
#[derive(Drop)]
pub enum OperandSyntax {
    Number(u64),
    /// An owner, a dot and a word.
    Reference { owner: Owner, word: Name },
}

/// Whose attribute a reference reads.
#[derive(Clone, Copy, PartialEq, Eq)]
pub enum Owner {
    /// `self`
    Itself,
    /// `victim`
    Victim,
    /// `core`
    Core,
    /// `t`
    Thread,
}
