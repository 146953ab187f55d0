//! What is counted from round to round.

ghost use Rattle.std.specs.Prelude.{◌≡◌, ◌+◌, ◌≤◌, All, min};
ghost use Rattle.sched_base.specs.declared.limits.TheConstants.{MAX_THREADS};
ghost use Rattle.round_model.specs.declared.plan.Planned.{Planned};
ghost use Rattle.parallel_play.specs.Tallies.{CountsTurn, IsEmpty, due_by};

use crate::sums::{IDS, Tally};
use core_calls::Turned;
use round_model::Plan;

impl Tally {
    /// Nothing is counted yet.
    pub fn new() -> Tally
        ensures { IsEmpty result }
    {
        Tally {
            entries: 0,
            ended: [false; IDS],
        }
    }

    /// Counts the beginning of a round.
    pub fn count_round(&mut self)
        ensures entries { self.new.entries ≡ min (self.old.entries + 1) u32.MAX }
        ensures ended { self.new.ended ≡ self.old.ended }
    {
        self.entries = self.entries.saturating_add(1);
    }

    /// Counts a turn.
    pub fn count_turn(&mut self, turned: Turned)
        ensures { CountsTurn turned self.old self.new }
    {
        self.entries = self.entries.saturating_add(turned.entries);
        if let Some(thread) = turned.ended {
            let at = thread as usize;
            if at < IDS {
                self.ended[at] = true;
            }
        }
    }

    /// Whether a next round is due behind so many.
    pub fn is_due(&self, plan: &Plan, begun: u32) -> bool
        requires { All (λ (t : Planned). t.id ≤ MAX_THREADS) plan.now.threads }
        ensures { result ≡ due_by plan.now begun self.now }
    {
        if begun >= plan.rounds {
            return false;
        }
        for thread in plan.threads.as_slice() {
            if !self.ended[thread.id as usize] {
                return true;
            }
        }
        false
    }
}
