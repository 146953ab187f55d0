//! The parts of a system: terms, rows, bounds and points.

use lists::Items;

/// A variable times a whole number.
#[derive(Clone, Copy)]
pub struct Term {
    /// The number of the variable, from 0.
    pub var: u32,
    /// The coefficient, which isn't 0 in a row of a system.
    pub coef: i64,
}

/// Terms in the order of their variables.
pub type TermList = Items<Term>;

/// An inequality: the sum of the terms is at most the bound.
#[derive(Drop)]
pub struct Row {
    /// The left side. Each variable stands there at most once.
    pub terms: TermList,
    /// The right side.
    pub bound: i64,
}

/// The range of a variable, both ends among it.
#[derive(Clone, Copy)]
pub struct Bound {
    /// The least value.
    pub lo: i64,
    /// The greatest value.
    pub hi: i64,
}

/// One whole number for each variable.
pub type ValueList = Items<i64>;

/// A choice of a value for each variable, in the order of their numbers.
#[derive(Drop)]
pub struct Point {
    /// The values. A list of another length than the system's variables solves nothing.
    pub vals: ValueList,
}
