//! How a step on one core ends.

ghost use Rattle.std.specs.Prelude.{◌<◌};
ghost use Rattle.core_table.specs.Public.{HasMoved, IsActors, IsOf, plan_of, view_of};
ghost use Rattle.core_table.specs.Told.{IsLocalIn};
ghost use Rattle.core_calls.specs.Code.Finishes.{Finished};

use core_table::{Held, Seat, Table};
use round_model::Entry;
use sched_base::Pos;

/// Draws the entry, which moved just the held core, shows the core as it is, and lets it go.
pub(crate) fn finish(table: &Table, seat: &mut Seat, mut held: Held, entry: Entry) -> Pos
    requires seat { IsOf table.now seat.old }
    requires actor { IsActors (view_of seat.old) entry }
    requires moved { HasMoved entry (view_of seat.old) held.core held.state }
    requires legal { IsLocalIn (view_of seat.old) entry }
    requires core { held.core < (plan_of table.now).cores }
    ensures seat { IsOf table.now seat.new }
    ensures finished { Finished entry held.core result (view_of seat.old) (view_of seat.new) }
{
    let at = table.draw_one(seat, &mut held, entry);
    table.publish(seat, &held);
    table.release(seat, held);
    at
}
