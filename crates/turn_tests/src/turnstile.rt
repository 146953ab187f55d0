//! A gate that notes who passes.

ghost use Rattle.std.specs.Prelude.{true};

use sched_io::Gate;
use std::sync::Wait;
use std::sync::atomic::{AtomicU32, Ordering};

/// A gate that notes the cores in the order in which they pass.
#[derive(Drop)]
pub(crate) struct Turnstile {
    passed: AtomicU32,
}

impl Turnstile {
    /// Nobody has passed yet.
    pub(crate) fn new() -> Turnstile {
        Turnstile {
            passed: AtomicU32::new(0),
        }
    }

    /// Who has passed: a digit for each, the last one behind, which is one more than the core's number.
    pub(crate) fn passed(&self) -> u32 {
        self.passed.load(Ordering::SeqCst)
    }
}

impl Gate for Turnstile {
    ghost admits = { λ _ _ _. true };

    ghost passed = { λ _ _ _. Unit {0} };

    fn pass<R: Wait>(&self, _rt: &R, core: u32, _round: u32) {
        let before = self.passed.load(Ordering::SeqCst);
        let now = before.wrapping_mul(10).wrapping_add(core).wrapping_add(1);
        self.passed.store(now, Ordering::SeqCst);
    }
}
