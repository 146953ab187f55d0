//! A blocked thread wakes.

ghost use Rattle.std.specs.Prelude.{◌≡◌, [], IsFalse, MatchOption};
ghost use Rattle.core_table.specs.Public.{IsOf, view_of};
ghost use Rattle.core_table.specs.Told.{IsSeatOf};
ghost use Rattle.select_phase.specs.Seen.{Placed};
ghost use Rattle.core_calls.specs.Actors.{core_of, table_of};
ghost use Rattle.core_calls.specs.Code.Finishes.{Glimpsed, HasFewMore};
ghost use Rattle.core_calls.specs.Code.Wakes.{WokenBy};
ghost use Rattle.core_calls.specs.Steps.{HasNoneDue, MayWake, Woken};

use crate::actor::Actor;
use crate::finishing::finish;
use core_table::Seat;
use round_model::Entry;
use sched_base::{Pos, Reads};
use select_phase::place;
use std::sync::Wait;

impl Actor<'_> {
    /// Wakes the next thread that is due in the open round, which has that number, and says at which position. Where
    /// none is due, the seat knows it from now on.
    pub fn wake_next<R: Wait>(&self, rt: &R, seat: &mut Seat, round: u32) -> Option<Pos>
        requires seat { IsOf (table_of self.now) seat.old }
        requires may { MayWake (view_of seat.old) (core_of self.now) }
        requires round { round ≡ (view_of seat.old).round }
        ensures seat { IsOf (table_of self.now) seat.new }
        ensures woken { MatchOption result (HasNoneDue (core_of self.now) (view_of seat.old) (view_of seat.new))
            (λ at. Woken (core_of self.now) at (view_of seat.old) (view_of seat.new)) }
    {
        if !self.has_due(rt, seat, round) {
            return None;
        }
        let (at, reads) = place(self.table, seat, self.policy, self.core);
        if at == self.core {
            self.wake_here(rt, seat, round, reads)
        } else {
            self.wake_away(rt, seat, round, at, reads)
        }
    }

    /// Whether a thread of the core is due. Where none is, the seat knows it from now on.
    fn has_due<R: Wait>(&self, rt: &R, seat: &mut Seat, round: u32) -> bool
        requires seat { IsOf (table_of self.now) seat.old }
        requires of_core { IsSeatOf (view_of seat.old) (core_of self.now) }
        requires free { (view_of seat.old).held ≡ [] }
        requires round { round ≡ (view_of seat.old).round }
        ensures seat { IsOf (table_of self.now) seat.new }
        ensures same { Glimpsed (core_of self.now) (view_of seat.old) (view_of seat.new) }
        ensures few { HasFewMore 1 (view_of seat.old) (view_of seat.new) }
        ensures none { IsFalse result → HasNoneDue (core_of self.now) (view_of seat.old) (view_of seat.new) }
    {
        let held = self.table.hold(rt, seat, self.core);
        let due = held.state.due(round).is_some();
        self.table.release(seat, held);
        due
    }

    /// Wakes the next thread that is due, and puts it on the core itself.
    fn wake_here<R: Wait>(&self, rt: &R, seat: &mut Seat, round: u32, reads: Reads) -> Option<Pos>
        requires seat { IsOf (table_of self.now) seat.old }
        requires may { MayWake (view_of seat.old) (core_of self.now) }
        requires round { round ≡ (view_of seat.old).round }
        requires placed { Placed (view_of seat.old) (core_of self.now) (core_of self.now) reads }
        ensures seat { IsOf (table_of self.now) seat.new }
        ensures woken { MatchOption result (HasNoneDue (core_of self.now) (view_of seat.old) (view_of seat.new))
            (λ at. WokenBy (core_of self.now) reads at (view_of seat.old) (view_of seat.new)) }
        ensures few { HasFewMore 4 (view_of seat.old) (view_of seat.new) }
    {
        let mut held = self.table.hold(rt, seat, self.core);
        let Some(thread) = held.state.due(round) else {
            self.table.release(seat, held);
            return None;
        };
        let task = held.state.release_blocked(thread);
        held.state.admit(self.policy, task, false);
        let entry = Entry::Wake {
            thread,
            by: self.core,
            at: self.core,
            reads,
        };
        Some(finish(self.table, seat, held, entry))
    }
}
