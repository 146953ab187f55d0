//! How far the cores have come in their turns of the open round.

ghost use Rattle.std.specs.Prelude.{◌<◌, None, false};
ghost use Rattle.sched_base.specs.declared.limits.TheConstants.{MAX_CORES};
ghost use Rattle.core_worker.specs.Turns.{IsBegun};

use sched_base::{CoreId, MAX_CORES, Reads};

/// A look at all cores, and what follows from it.
#[derive(Clone, Copy)]
pub(crate) struct Look {
    /// Of each core the position at which it was read.
    pub(crate) reads: Reads,
    /// The core that is to be stolen from, where there is a candidate.
    pub(crate) choice: Option<CoreId>,
}

/// Of each core, how far it has come in its turn.
#[derive(Drop)]
pub(crate) struct Turns {
    /// Whether it has run its unit.
    pub(crate) worked: [bool; MAX_CORES],
    /// Whether it has made its attempt.
    pub(crate) attempted: [bool; MAX_CORES],
    /// The look that it has made, if it has looked.
    pub(crate) looks: [Option<Look>; MAX_CORES],
}

impl Turns {
    /// No core has done anything yet.
    pub(crate) fn begun() -> Turns
        ensures { IsBegun result }
    {
        Turns {
            worked: [false; MAX_CORES],
            attempted: [false; MAX_CORES],
            looks: [None; MAX_CORES],
        }
    }

    /// As a round begins: no core has done anything yet. A look is large, so only those that were made are forgotten.
    pub(crate) fn begin(&mut self)
        ensures { IsBegun self.new }
    {
        for core in 0..MAX_CORES {
            self.worked[core] = false;
            self.attempted[core] = false;
            if self.looks[core].is_some() {
                self.looks[core] = None;
            }
        }
    }
}
