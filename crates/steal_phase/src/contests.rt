//! The two ways of an attempt: no core was chosen, or one was.

ghost use Rattle.std.specs.Prelude.{◌≡◌, None, Some};
ghost use Rattle.round_model.specs.declared.entry.Entry.TheVariants as entry;
ghost use Rattle.round_model.specs.Attempts.{steal_or_fail};
ghost use Rattle.core_table.specs.Public.{IsOf, policy_of, view_of};
ghost use Rattle.steal_phase.specs.Attempts.{HasAdded, IsDrawn, MayAttempt};

use crate::taking::take_best;
use core_table::{Seat, Table};
use policy_tree::Policy;
use round_model::Entry;
use sched_base::{CoreId, Pos, Stolen};
use select_phase::Look;
use std::sync::Wait;

/// The attempt without a choice.
pub(crate) fn pass<R: Wait>(table: &Table, rt: &R, seat: &mut Seat, look: Look) -> Pos
    requires seat { IsOf table.now seat.old }
    requires may { MayAttempt (view_of seat.old) look }
    requires choice { look.choice ≡ None }
    ensures seat { IsOf table.now seat.new }
    ensures added { HasAdded look.by result (entry.Pass look.by look.reads) (view_of seat.old) (view_of seat.new) }
    ensures drawn { IsDrawn look result (entry.Pass look.by look.reads) (view_of seat.old) }
{
    let mut held = table.hold(rt, seat, look.by);
    let entry = Entry::Pass {
        by: look.by,
        reads: look.reads,
    };
    let at = table.draw_one(seat, &mut held, entry);
    table.publish(seat, &held);
    table.release(seat, held);
    at
}

/// The attempt on the core that was chosen: its position, and the threads that were taken.
pub(crate) fn contest<R: Wait>(
    table: &Table,
    rt: &R,
    seat: &mut Seat,
    policy: &Policy,
    look: Look,
    from: CoreId,
) -> (Pos, Stolen)
    requires seat { IsOf table.now seat.old }
    requires policy { policy.now ≡ policy_of table.now }
    requires may { MayAttempt (view_of seat.old) look }
    requires choice { look.choice ≡ Some from }
    ensures seat { IsOf table.now seat.new }
    ensures added { HasAdded look.by result.0 (steal_or_fail look.by from look.reads result.1)
        (view_of seat.old) (view_of seat.new) }
    ensures drawn { IsDrawn look result.0 (steal_or_fail look.by from look.reads result.1) (view_of seat.old) }
{
    let mut held = table.hold_two(rt, seat, look.by, from);
    let stolen = take_best(table, policy, &mut held.first, &mut held.second);
    let entry = Entry::steal_or_fail(look.by, from, stolen, look.reads);
    let at = table.draw_two(seat, &mut held, entry);
    table.publish_two(seat, &held);
    table.release_two(seat, held);
    (at, stolen)
}
