//! Certificates.

use lists::Items;

/// A row times a whole number that isn't negative.
#[derive(Clone, Copy)]
pub struct Mult {
    /// The number of the row. Of a system with m rows, its own are 0 to m - 1; row m + 2i says
    /// `-x <= -lo` and row m + 2i + 1 says `x <= hi` of variable i.
    pub row: u32,
    /// The multiplier.
    pub by: u64,
}

/// Rows with their multipliers, in the order in which they are added up.
pub type MultList = Items<Mult>;

/// A reason why a system has no solution.
#[derive(Drop)]
pub enum Cert {
    /// Rows that add up to `0 <= c` with c negative, each times its multiplier.
    Leaf(MultList),
    /// A case for each part of a variable's range: the values up to one, and those past it.
    Split {
        /// The number of the variable.
        var: u32,
        /// The greatest value of the left part.
        at: i64,
        /// Why no solution has a value up to `at`.
        left: Box<Cert>,
        /// Why no solution has a value past `at`.
        right: Box<Cert>,
    },
}
