//! Threads of one held core go over to another, by both as they are.

ghost use Rattle.std.specs.Prelude.{◌≡◌};
ghost use Rattle.policy_tree.specs.Meaning.{meaning_of};
ghost use Rattle.core_table.specs.Public.{plan_of};
ghost use Rattle.steal_phase.specs.Taking.{AreTwo, Steals, best_to_steal};

use batch_moves::take_all;
use core_table::{Held, Table};
use policy_tree::Policy;
use sched_base::Stolen;

/// The thief takes threads of the victim, as far as the policy says, and they are told.
pub(crate) fn take_best(
    table: &Table,
    policy: &Policy,
    thief: &mut Held,
    victim: &mut Held,
) -> Stolen
    requires { AreTwo (meaning_of policy.now) (plan_of table.now)
        thief.old.core thief.old.state victim.old.core victim.old.state }
    ensures cores { (thief.new.core ≡ thief.old.core) × (victim.new.core ≡ victim.old.core) }
    ensures threads { result ≡ best_to_steal (meaning_of policy.now) (plan_of table.now)
        thief.old.core thief.old.state.core victim.old.core victim.old.state.core }
    ensures taken { Steals result thief.old.state victim.old.state thief.new.state victim.new.state }
{
    let own = table.consts(thief.core);
    let other = table.consts(victim.core);
    take_all(policy, own, other, &mut thief.state, &mut victim.state)
}
