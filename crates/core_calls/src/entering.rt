//! A thread enters.

ghost use Rattle.core_table.specs.Public.{IsOf, view_of};
ghost use Rattle.core_calls.specs.Actors.{core_of, table_of};
ghost use Rattle.core_calls.specs.Steps.{Entered, MayEnter};

use crate::actor::Actor;
use crate::finishing::finish;
use core_table::Seat;
use round_model::{Entry, entering_task, planned};
use sched_base::{Pos, ThreadId};
use select_phase::place;
use std::sync::Wait;

impl Actor<'_> {
    /// Lets the thread of the plan in, which is the next to enter by this core. The core places it by what it reads,
    /// and waits for the core where it places it.
    pub fn enter<R: Wait>(&self, rt: &R, seat: &mut Seat, thread: ThreadId) -> Pos
        requires seat { IsOf (table_of self.now) seat.old }
        requires may { MayEnter (view_of seat.old) (core_of self.now) thread }
        ensures seat { IsOf (table_of self.now) seat.new }
        ensures entered { Entered (core_of self.now) thread result (view_of seat.old) (view_of seat.new) }
    {
        let (at, reads) = place(self.table, seat, self.policy, self.core);
        let Some(planned) = planned(self.plan, thread) else {
            unreachable!()
        };
        let mut held = self.table.hold(rt, seat, at);
        held.state
            .admit(self.policy, entering_task(self.policy, planned), true);
        let entry = Entry::Enter {
            thread,
            by: self.core,
            at,
            reads,
        };
        finish(self.table, seat, held, entry)
    }
}
