//! A unit of work.

ghost use Rattle.std.specs.Prelude.{◌≡◌};
ghost use Rattle.core_table.specs.Public.{IsOf, view_of};
ghost use Rattle.core_calls.specs.Actors.{core_of, table_of};
ghost use Rattle.core_calls.specs.Steps.{MayWork, Worked};

use crate::actor::Actor;
use crate::finishing::finish;
use core_table::Seat;
use round_model::{Did, Entry};
use std::sync::Wait;

impl Actor<'_> {
    /// Runs the core's unit of the open round, which has that number. It says what became of the thread that ran.
    pub fn work<R: Wait>(&self, rt: &R, seat: &mut Seat, round: u32) -> Did
        requires seat { IsOf (table_of self.now) seat.old }
        requires may { MayWork (view_of seat.old) (core_of self.now) }
        requires round { round ≡ (view_of seat.old).round }
        ensures seat { IsOf (table_of self.now) seat.new }
        ensures worked { Worked (core_of self.now) result (view_of seat.old) (view_of seat.new) }
    {
        let mut held = self.table.hold(rt, seat, self.core);
        let did = held.state.work(self.policy, self.plan, round);
        let entry = Entry::Work { by: self.core, did };
        finish(self.table, seat, held, entry);
        did
    }
}
