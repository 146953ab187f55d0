//! The limits of the two languages: that of policies and that of level texts.

use sched_base::{
    MAX_ATTRIBUTES, MAX_CASES, MAX_COMPARISONS, MAX_KEYS, MAX_LEVEL_COMPARISONS, MAX_LEVEL_KEYS,
    MAX_LEVELS, MAX_NESTING, MAX_OPERATORS, MAX_SETS,
};

/// How much of each thing a text may have.
#[derive(Clone, Copy)]
pub struct Limits {
    /// Attributes of one kind.
    pub attrs: u32,
    /// Cases of a handler.
    pub cases: u32,
    /// Assignments of a case.
    pub sets: u32,
    /// Keys of an order.
    pub keys: u32,
    /// Comparisons of a condition.
    pub comparisons: u32,
    /// Operators of an expression.
    pub operators: u32,
    /// Parentheses, `not` and unary `-` that are open at a place.
    pub nesting: u32,
    /// Levels of a level text.
    pub levels: u32,
    /// Comparisons of a level's filter, in place of those of a condition.
    pub level_comparisons: u32,
    /// Keys of a level text's `choose`, in place of those of an order.
    pub level_keys: u32,
}

/// The limits of policies and of level texts.
pub const POLICY_LIMITS: Limits = Limits {
    attrs: MAX_ATTRIBUTES as u32,
    cases: MAX_CASES as u32,
    sets: MAX_SETS as u32,
    keys: MAX_KEYS as u32,
    comparisons: MAX_COMPARISONS as u32,
    operators: MAX_OPERATORS as u32,
    nesting: MAX_NESTING as u32,
    levels: MAX_LEVELS as u32,
    level_comparisons: MAX_LEVEL_COMPARISONS as u32,
    level_keys: MAX_LEVEL_KEYS as u32,
};
