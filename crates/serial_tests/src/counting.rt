//! How a play at the table is counted.

ghost use Rattle.std.specs.Prelude.{◌≡◌, ◌+◌, ◌≤◌, All, min};
ghost use Rattle.sched_base.specs.declared.limits.TheConstants.{MAX_THREADS};
ghost use Rattle.round_model.specs.declared.plan.Planned.{Planned};
ghost use Rattle.parallel_play.specs.Tallies.{CountsTurn, IsEmpty, due_by};
ghost use Rattle.serial_tests.specs.Counts.{tally_of};

use crate::count::{Count, IDS};
use core_calls::Turned;
use round_model::Plan;

impl Count {
    /// Nothing is counted yet.
    pub(crate) fn new() -> Count
        ensures { IsEmpty (tally_of result) }
    {
        Count {
            entries: 0,
            ended: [false; IDS],
        }
    }

    /// Counts the beginning of a round.
    pub(crate) fn count_round(&mut self)
        ensures entries { self.new.entries ≡ min (self.old.entries + 1) u32.MAX }
        ensures ended { self.new.ended ≡ self.old.ended }
    {
        self.entries = self.entries.saturating_add(1);
    }

    /// Counts the turn of a core.
    pub(crate) fn count_turn(&mut self, turned: Turned)
        ensures { CountsTurn turned (tally_of self.old) (tally_of self.new) }
    {
        self.entries = self.entries.saturating_add(turned.entries);
        if let Some(thread) = turned.ended {
            let at = thread as usize;
            if at < IDS {
                self.ended[at] = true;
            }
        }
    }

    /// Whether a next round is due behind so many.
    pub(crate) fn is_due(&self, plan: &Plan, begun: u32) -> bool
        requires { All (λ (t : Planned). t.id ≤ MAX_THREADS) plan.now.threads }
        ensures { result ≡ due_by plan.now begun (tally_of self.now) }
    {
        if begun >= plan.rounds {
            return false;
        }
        for thread in plan.threads.as_slice() {
            if !self.ended[thread.id as usize] {
                return true;
            }
        }
        false
    }
}
