//! The choice of a core to steal from.

ghost use Rattle.std.specs.Prelude.{◌≡◌, ◌<◌};
ghost use Rattle.core_table.specs.Public.{IsOf, plan_of, policy_of, view_of};
ghost use Rattle.select_phase.specs.Seen.{AreAll, AreLast, AreLate, HasMoreNotes, Looked};

use crate::glances::glance;
use crate::looks::Look;
use core_table::{Seat, Table};
use policy_eval::CoreValues;
use policy_tree::Policy;
use round_model::choice;
use sched_base::CoreId;

/// Reads each core once, the core's own too, and chooses by what was read.
pub fn look(table: &Table, seat: &mut Seat, policy: &Policy, core: CoreId) -> Look
    requires seat { IsOf table.now seat.old }
    requires policy { policy.now ≡ policy_of table.now }
    requires core { core < (plan_of table.now).cores }
    ensures seat { IsOf table.now seat.new × HasMoreNotes (view_of seat.old) (view_of seat.new) }
    ensures by { result.by ≡ core }
    ensures looked { Looked (view_of seat.new) result }
    ensures late { AreLate (view_of seat.old) result.reads }
    ensures last { AreLast (view_of seat.new) result.reads }
    ensures all { AreAll (view_of seat.old) (view_of seat.new) result.reads }
{
    let mut values = CoreValues::NOTHING_SEEN;
    let reads = glance(table, seat, &mut values);
    let values = &values[..table.cores() as usize];
    Look {
        by: core,
        reads,
        choice: choice(policy, values, core),
    }
}
