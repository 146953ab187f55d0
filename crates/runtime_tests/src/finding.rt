//! What a check finds, and how that is told.

use std::io;

/// What a check finds.
#[derive(Clone, Copy)]
pub(crate) enum Finding {
    /// All is as expected.
    Expected,
    /// That isn't so.
    Not(&'static str),
    /// That isn't so in that turn, from 0.
    NotIn(&'static str, u32),
}

impl Finding {
    /// What this check finds, or else the other one.
    pub(crate) fn and(self, other: Finding) -> Finding {
        match self {
            Finding::Expected => other,
            found => found,
        }
    }
}

/// A fact, and whether it is so.
pub(crate) type Fact = (&'static str, bool);

/// The first of the facts that isn't so, if there is one.
pub(crate) fn all_hold(facts: &[Fact]) -> Finding {
    for (fact, holds) in facts {
        if !*holds {
            return Finding::Not(*fact);
        }
    }
    Finding::Expected
}

/// Prints what the check of that name found. `None` says that memory ran out.
pub(crate) fn told<R: Print>(rt: &R, name: &str, found: Option<Finding>) -> io::Result<()> {
    match found {
        Some(Finding::Expected) => println!(rt; "{name}: as expected"),
        Some(Finding::Not(fact)) => println!(rt; "{name}: it isn't so that {fact}"),
        Some(Finding::NotIn(fact, turn)) => {
            println!(rt; "{name}: in turn {turn} it isn't so that {fact}")
        }
        None => println!(rt; "{name}: no memory"),
    }
}
