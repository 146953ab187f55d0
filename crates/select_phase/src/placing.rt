//! Where a thread goes that enters or wakes.

ghost use Rattle.std.specs.Prelude.{◌≡◌, ◌<◌};
ghost use Rattle.core_table.specs.Public.{IsOf, plan_of, policy_of, view_of};
ghost use Rattle.select_phase.specs.Seen.{AreAll, AreLate, HasMoreNotes, Placed};

use crate::glances::glance;
use core_table::{Seat, Table};
use policy_eval::CoreValues;
use policy_tree::{PlaceRule, Policy};
use round_model::target;
use sched_base::{CoreId, Reads};

/// The core on which `core` places a thread, and what it read for that: under `here` nothing, under `least` each
/// core once, its own too.
pub fn place(table: &Table, seat: &mut Seat, policy: &Policy, core: CoreId) -> (CoreId, Reads)
    requires seat { IsOf table.now seat.old }
    requires policy { policy.now ≡ policy_of table.now }
    requires core { core < (plan_of table.now).cores }
    ensures seat { IsOf table.now seat.new × HasMoreNotes (view_of seat.old) (view_of seat.new) }
    ensures placed { Placed (view_of seat.new) core result.0 result.1 }
    ensures late { AreLate (view_of seat.old) result.1 }
    ensures all { AreAll (view_of seat.old) (view_of seat.new) result.1 }
{
    match &policy.place {
        PlaceRule::Here => (core, Reads::empty()),
        PlaceRule::Least(_) => {
            let mut values = CoreValues::NOTHING_SEEN;
            let reads = glance(table, seat, &mut values);
            let values = &values[..table.cores() as usize];
            (target(policy, values, core), reads)
        }
    }
}
