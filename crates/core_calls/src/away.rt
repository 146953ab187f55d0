//! A blocked thread wakes on another core.

ghost use Rattle.std.specs.Prelude.{◌≡◌, ◌≢◌, MatchOption};
ghost use Rattle.policy_tree.specs.Meaning.{meaning_of};
ghost use Rattle.core_table.specs.Public.{IsOf, plan_of, policy_of, view_of};
ghost use Rattle.select_phase.specs.Seen.{Placed};
ghost use Rattle.steal_phase.specs.Taking.{AreTwo};
ghost use Rattle.core_calls.specs.Actors.{core_of, table_of};
ghost use Rattle.core_calls.specs.Code.Finishes.{HasFewMore};
ghost use Rattle.core_calls.specs.Code.Sends.{Sends};
ghost use Rattle.core_calls.specs.Code.Wakes.{WokenBy};
ghost use Rattle.core_calls.specs.Steps.{HasNoneDue, MayWake};

use crate::actor::Actor;
use core_table::{Held, Seat};
use round_model::Entry;
use sched_base::{CoreId, Pos, Reads, ThreadId};
use std::sync::Wait;

impl Actor<'_> {
    /// Wakes the next thread that is due, and puts it on another core.
    pub(crate) fn wake_away<R: Wait>(
        &self,
        rt: &R,
        seat: &mut Seat,
        round: u32,
        at: CoreId,
        reads: Reads,
    ) -> Option<Pos>
        requires seat { IsOf (table_of self.now) seat.old }
        requires may { MayWake (view_of seat.old) (core_of self.now) }
        requires round { round ≡ (view_of seat.old).round }
        requires away { at ≢ core_of self.now }
        requires placed { Placed (view_of seat.old) (core_of self.now) at reads }
        ensures seat { IsOf (table_of self.now) seat.new }
        ensures woken { MatchOption result (HasNoneDue (core_of self.now) (view_of seat.old) (view_of seat.new))
            (λ at. WokenBy (core_of self.now) reads at (view_of seat.old) (view_of seat.new)) }
        ensures few { HasFewMore 4 (view_of seat.old) (view_of seat.new) }
    {
        let mut held = self.table.hold_two(rt, seat, self.core, at);
        let Some(thread) = self.send_due(&mut held.first, &mut held.second, round) else {
            self.table.release_two(seat, held);
            return None;
        };
        let entry = Entry::Wake {
            thread,
            by: self.core,
            at,
            reads,
        };
        let position = self.table.draw_two(seat, &mut held, entry);
        self.table.publish_two(seat, &held);
        self.table.release_two(seat, held);
        Some(position)
    }

    /// The next thread that is due leaves the one core and comes to the other.
    fn send_due(&self, from: &mut Held, to: &mut Held, round: u32) -> Option<ThreadId>
        requires { AreTwo (meaning_of (policy_of (table_of self.now))) (plan_of (table_of self.now))
            from.old.core from.old.state to.old.core to.old.state }
        ensures cores { (from.new.core ≡ from.old.core) × (to.new.core ≡ to.old.core) }
        ensures sent { Sends (meaning_of (policy_of (table_of self.now)))
            round result from.old.state to.old.state from.new.state to.new.state }
    {
        let thread = from.state.due(round)?;
        let task = from.state.release_blocked(thread);
        to.state.admit(self.policy, task, false);
        Some(thread)
    }
}
