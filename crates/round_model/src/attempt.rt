//! What comes of an attempt.

ghost use Rattle.std.specs.Prelude.{◌≡◌, ◌↔◌, IsTrue};

use sched_base::{CoreId, Stolen};

/// What comes of an attempt.
#[derive(Clone, Copy, PartialEq, Eq)]
pub enum Attempt {
    /// No core was chosen.
    Pass,
    /// Nothing is taken of the core that was chosen.
    Fail(CoreId),
    /// These threads are taken of that core, at least one.
    Steal(CoreId, Stolen),
}

impl Attempt {
    /// Whether the two are the same.
    pub fn is(self, other: Attempt) -> bool
        ensures { IsTrue result ↔ (self ≡ other) }
    {
        self == other
    }
}
