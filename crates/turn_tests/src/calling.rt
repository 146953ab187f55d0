//! The calls of a core by a history in memory.

ghost use Rattle.std.specs.Prelude.{refl};
ghost use Rattle.std.proofs.Common.{◌∙◌};
ghost use Rattle.turn_tests.specs.Follows.{IsSame};
ghost use Rattle.turn_tests.specs.Memory.{IsReady, view_of};

use crate::memory_calls::MemoryCalls;
use crate::outcomes::outcome;
use crate::reads::fresh_reads;
use crate::steps::{did, woken};
use core_calls::CoreCalls;
use round_model::{Did, Entry, choice};
use sched_base::{Pos, ThreadId};
use sched_io::Gate;
use select_phase::Look;
use serial_steps::NextStep;
use std::sync::Wait;
use steal_phase::Outcome;

impl CoreCalls for MemoryCalls<'_> {
    ghost view = { view_of };

    ghost ready = { IsReady };

    ghost follows = { IsSame };

    fn enter<R: Wait>(&mut self, rt: &R, _thread: ThreadId) -> Pos {
        match self.next(None) {
            NextStep::Adds(entry) => self.add(rt, &entry),
            NextStep::Looks | NextStep::Over => unreachable!(),
        }
    }

    fn wake_next<R: Wait>(&mut self, rt: &R, _round: u32) -> Option<Pos> {
        match woken(self.next(None)) {
            Some(entry) => Some(self.add(rt, &entry)),
            None => {
                self.none_due = true;
                None
            }
        }
    }

    fn work<R: Wait>(&mut self, rt: &R, _round: u32) -> Did {
        match did(self.next(None)) {
            Some(did) => {
                let entry = Entry::Work { by: self.core, did };
                self.add(rt, &entry);
                did
            }
            None => unreachable!(),
        }
    }

    fn look<G: Gate>(&mut self, _gate: &G) -> Look {
        let reads = fresh_reads(self.plan, &self.history);
        let values = self.values_read(&reads);
        Look {
            by: self.core,
            reads,
            choice: choice(self.policy, &values[..self.plan.cores as usize], self.core),
        }
    }

    fn attempt<R: Wait>(&mut self, rt: &R, look: Look) -> Outcome {
        match self.next(Some(look.reads)) {
            NextStep::Adds(entry) => outcome(self.add(rt, &entry), &entry),
            NextStep::Looks | NextStep::Over => unreachable!(),
        }
    }

    ghost known = { λ it ready. ∣ (it.history, ready.agrees) ∣₁ };

    ghost at_first = { λ it. record { policy = refl; plan = refl; core = refl; others = λ c apart. refl } };

    ghost in_a_row = { λ first next last one other. record {
      policy = other.policy ∙ one.policy;
      plan = other.plan ∙ one.plan;
      core = other.core ∙ one.core;
      others = λ c apart. other.others c (λ same. apart (same ∙ one.core)) ∙ one.others c apart;
    } };
}
