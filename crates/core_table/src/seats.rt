//! The calls that split seats of cores off the opening one, and join them back.

ghost use Rattle.std.specs.Prelude.{◌<◌};
ghost use Rattle.core_table.specs.Public.{Becomes, IsOf, Stays, view_of};
ghost use Rattle.core_table.specs.Told.{HasIdle, IsFreeSeat, IsOpening};
ghost use Rattle.core_table.specs.Views.{joining, leaving, seat_of_core};

use crate::cuts::{join_to, split_off};
use crate::seat::{Seat, Table};
use sched_base::CoreId;

impl Table {
    /// A seat of the core for the open round. The core has had none in it.
    pub fn split_for_core(&self, seat: &mut Seat, core: CoreId) -> Seat
        requires seat { IsOf self.now seat.old }
        requires idle { HasIdle (view_of seat.old) core }
        requires round { 0 < (view_of seat.old).round }
        ensures left { Stays self.now seat.new (leaving core (view_of seat.old)) }
        ensures right { Stays self.now result (seat_of_core core (view_of seat.old)) }
    {
        let place = split_off(&self.inner.shared, &mut seat.place, core);
        Seat {
            place,
            start: seat.start,
        }
    }

    /// Takes the seat of a core back, with what it drew. That seat holds nothing.
    pub fn join_back(&self, seat: &mut Seat, other: Seat)
        requires seat { IsOf self.now seat.old }
        requires opening { IsOpening (view_of seat.old) }
        requires other { IsOf self.now other }
        requires free { IsFreeSeat (view_of other) }
        ensures joined { Becomes self.now seat.new (joining (view_of seat.old) (view_of other)) }
    {
        let Seat { place, .. } = other;
        join_to(&self.inner.shared, &mut seat.place, place);
    }
}
