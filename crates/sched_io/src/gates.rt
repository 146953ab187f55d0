//! Where workers may wait for one another.

ghost use Rattle.std.specs.Prelude.{ℕ, Bool, IsTrue, true};

use std::sync::Wait;

/// A place that each worker passes in each round, between its unit of work and its look at the other cores,
/// while it holds no core. A test makes workers meet there.
pub trait Gate: Sync {
    /// Whether that core's worker may come to it in that round. Of a gate of which nothing is known nobody may.
    ghost admits: { Self → ℕ → ℕ → Bool };

    /// That this core's worker has passed in that round. Of a gate of which nothing is known `pass` alone tells it.
    ghost passed: { Self → ℕ → ℕ → Type 0 };

    /// Lets that core's worker pass in that round. It may wait.
    fn pass<R: Wait>(&self, rt: &R, core: u32, round: u32)
        requires { IsTrue (admits self.now core round) }
        ensures { passed self.now core round };
}

/// The gate that lets everyone pass at once.
#[derive(Clone, Copy)]
pub struct OpenGate;

impl Gate for OpenGate {
    ghost admits = { λ _ _ _. true };

    ghost passed = { λ _ _ _. Unit {0} };

    fn pass<R: Wait>(&self, _rt: &R, _core: u32, _round: u32) {}
}
