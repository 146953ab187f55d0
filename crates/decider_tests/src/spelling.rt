//! How the tables spell systems: `RANGES; ROW; ROW ..`. A range is `LO..HI`, and `-` stands for no ranges. A row is
//! `TERM TERM .. <= BOUND`, and a term `COEFFICIENT*VARIABLE`. Where something else goes with the system, it stands in
//! front, with `; ` behind it. And in front of all a case may have a name, with `: ` behind it.

use std::alloc::{AllocError, AllocFailed, Global};

/// Why there is no system.
#[derive(Clone, Copy)]
pub(crate) enum Misspelt {
    /// The text spells none.
    Form,
    /// It has more rows than a system.
    Full,
    /// There was no memory.
    Memory,
}

impl From<AllocError> for Misspelt {
    fn from(_error: AllocError) -> Misspelt {
        Misspelt::Memory
    }
}

impl<T: Drop> From<AllocFailed<T>> for Misspelt {
    fn from(_error: AllocFailed<T>) -> Misspelt {
        Misspelt::Memory
    }
}

impl Misspelt {
    /// The answer to such a text.
    pub(crate) fn answer(self, alloc: Global) -> Result<String, AllocError> {
        match self {
            Misspelt::Form => String::from_str(alloc, "no system"),
            Misspelt::Full => String::from_str(alloc, "full"),
            Misspelt::Memory => Err(AllocError),
        }
    }
}

/// The text without its name.
pub(crate) fn unnamed(text: &str) -> &str {
    match text.split_once(": ") {
        Some((_name, behind)) => behind,
        None => text,
    }
}

/// What stands in front of the system, and its spelling.
pub(crate) fn parts(text: &str) -> Result<(&str, &str), Misspelt> {
    unnamed(text).split_once("; ").ok_or(Misspelt::Form)
}

/// A number with its sign.
pub(crate) fn number(word: &str) -> Result<i64, Misspelt> {
    word.parse().map_err(|_error| Misspelt::Form)
}

/// The ends of the ranges.
pub(crate) fn ranges_in(alloc: Global, text: &str) -> Result<Vec<(i64, i64)>, Misspelt> {
    let mut ranges = Vec::new(alloc);
    for word in text.split(' ').filter(|word| *word != "-") {
        let (lo, hi) = word.split_once("..").ok_or(Misspelt::Form)?;
        ranges.push((number(lo)?, number(hi)?))?;
    }
    Ok(ranges)
}

/// The terms of a row, and its bound.
pub(crate) fn row_parts(row: &str) -> Result<(&str, i64), Misspelt> {
    let (terms, bound) = row.split_once("<= ").ok_or(Misspelt::Form)?;
    Ok((terms, number(bound)?))
}

/// The terms: each one's variable, and its coefficient.
pub(crate) fn terms_in(alloc: Global, text: &str) -> Result<Vec<(u32, i64)>, Misspelt> {
    let mut terms = Vec::new(alloc);
    for word in text.split(' ').filter(|word| !word.is_empty()) {
        let (coefficient, variable) = word.split_once('*').ok_or(Misspelt::Form)?;
        let variable = variable.parse().map_err(|_error| Misspelt::Form)?;
        terms.push((variable, number(coefficient)?))?;
    }
    Ok(terms)
}
