//! All cores by value, as they are at the end.

ghost use Rattle.std.specs.Prelude.{◌≡◌, ◌<◌, ◌≤◌, Some, length, slice_get, vec_len};
ghost use Rattle.sched_base.specs.declared.limits.TheConstants.{MAX_CORES};

use crate::logged::Logged;
use crate::state::CoreState;
use sched_base::{CoreId, MAX_CORES};
use std::marker::Model;

/// The cores in the order of their numbers, at most `MAX_CORES`, and the log of the rounds that began.
#[derive(Drop)]
pub struct Closed {
    cores: Vec<CoreState>,
    rounds: Vec<Logged>,
}

impl Model for Closed {
    ghost use Rattle.std.specs.Prelude.{◌≤◌, vec_len};
    ghost use Rattle.std.specs.Coded.{codes};
    ghost use Rattle.run_queue.specs.Code.Codes.{key_code};
    ghost use Rattle.sched_base.specs.declared.limits.TheConstants.{MAX_CORES};
    ghost use Rattle.core_state.specs.Views.{ClosedView};

    ghost Value = { ClosedView };

    ghost coded = { Prim.hlevel (codes, key_code) };

    ghost view = { λ c. record { cores = c.cores.items; rounds = c.rounds.items } };

    ghost invariant = { λ c. vec_len c.cores ≤ MAX_CORES };
}

impl Closed {
    /// These cores, and this log of rounds. It takes no memory.
    pub fn new(cores: Vec<CoreState>, rounds: Vec<Logged>) -> Closed
        requires { vec_len cores ≤ MAX_CORES }
        ensures { result ≡ record { cores = cores.items; rounds = rounds.items } }
    {
        Closed { cores, rounds }
    }

    /// The number of cores, at most `MAX_CORES`.
    pub fn cores(&self) -> u32
        ensures count { result ≡ length self.now.cores }
        ensures few { result ≤ MAX_CORES }
    {
        self.cores.len() as u32
    }

    /// The core of that number.
    pub fn core(&self, core: CoreId) -> &CoreState
        requires { core < length self.now.cores }
        ensures { slice_get self.now.cores core ≡ Some result.now }
    {
        &self.cores[core as usize]
    }

    /// The rounds that began, with their positions.
    pub fn rounds(&self) -> &[Logged]
        ensures { result.now ≡ self.now.rounds }
    {
        self.rounds.as_slice()
    }
}
