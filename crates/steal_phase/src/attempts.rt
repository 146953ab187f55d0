//! The attempt of a core.

ghost use Rattle.std.specs.Prelude.{◌≡◌};
ghost use Rattle.core_table.specs.Public.{IsOf, policy_of, view_of};
ghost use Rattle.steal_phase.specs.Attempts.{Attempted, HasAdded, MayAttempt, entry_of, position_of};

use crate::contests::{contest, pass};
use crate::outcome::Outcome;
use core_table::{Seat, Table};
use policy_tree::Policy;
use select_phase::Look;
use std::sync::Wait;

/// The core's one attempt of the round. With a choice it waits for both cores, else for its own alone.
pub fn attempt<R: Wait>(
    table: &Table,
    rt: &R,
    seat: &mut Seat,
    policy: &Policy,
    look: Look,
) -> Outcome
    requires seat { IsOf table.now seat.old }
    requires policy { policy.now ≡ policy_of table.now }
    requires may { MayAttempt (view_of seat.old) look }
    ensures seat { IsOf table.now seat.new }
    ensures added { HasAdded look.by (position_of result) (entry_of look result)
        (view_of seat.old) (view_of seat.new) }
    ensures attempted { Attempted look result (view_of seat.old) }
{
    let Some(from) = look.choice else {
        return Outcome::Passed(pass(table, rt, seat, look));
    };
    let (at, threads) = contest(table, rt, seat, policy, look, from);
    if threads.is_empty() {
        Outcome::Failed(at)
    } else {
        Outcome::Stole(at, threads)
    }
}
