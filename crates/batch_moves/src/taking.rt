//! The moves of a steal.

ghost use Rattle.std.specs.Prelude.{◌≡◌, ◌<◌, Some, length};
ghost use Rattle.policy_tree.specs.Meaning.{meaning_of};
ghost use Rattle.policy_eval.specs.Ranges.{AreIn, attribute_ranges};
ghost use Rattle.policy_eval.specs.Resolved.{IsResolved};
ghost use Rattle.round_model.specs.Attempts.{moves_of};
ghost use Rattle.round_model.specs.Moves.{handed, handed_all, queued_of, received, received_all, taken_from};
ghost use Rattle.run_queue.specs.Tasks.{IsSeenTask};
ghost use Rattle.batch_moves.specs.Sides.{InEachPlan, MayTake};

use crate::next::{first, next};
use core_state::CoreState;
use policy_tree::Policy;
use sched_base::{MAX_ATTRIBUTES, Stolen, Task};

/// The thief takes threads of the victim, as far as the policy says, and they are told in the order of their moves.
/// There are none where the filter doesn't hold or nothing is queued. `own` are the thief's constants, and `other`
/// the victim's, as their plan has them.
pub fn take_all(
    policy: &Policy,
    own: &[i32; MAX_ATTRIBUTES],
    other: &[i32; MAX_ATTRIBUTES],
    thief: &mut CoreState,
    victim: &mut CoreState,
) -> Stolen
    requires policy { IsResolved (meaning_of policy.now) }
    requires own { AreIn (attribute_ranges policy.now.core_attrs) own.now }
    requires other { AreIn (attribute_ranges policy.now.core_attrs) other.now }
    requires may { MayTake (meaning_of policy.now) thief.old victim.old }
    ensures moves { InEachPlan own.now other.now (λ plan a v. result ≡ moves_of
        (meaning_of policy.now) plan a v (meaning_of policy.now).batch thief.old.core victim.old.core) }
    ensures thief { thief.new ≡ record thief.old {
      core = received_all (taken_from result victim.old.core.queue).found thief.old.core;
    } }
    ensures victim { victim.new ≡ record victim.old { core = handed_all result victim.old.core } }
{
    let Some(best) = first(policy, own, other, thief, victim) else {
        return Stolen::empty();
    };
    carry(best, thief, victim);
    let mut stolen = Stolen::of(best.id);
    let Some(batch) = &policy.batch else {
        return stolen;
    };
    for _move in 1..batch.limit {
        let Some(task) = next(policy, batch, own, other, thief, victim) else {
            return stolen;
        };
        carry(task, thief, victim);
        stolen.push(task.id);
    }
    stolen
}

/// The queued task goes over to the thief.
fn carry(task: Task, thief: &mut CoreState, victim: &mut CoreState)
    requires there { queued_of task.id victim.old.core ≡ Some task }
    requires room { length thief.old.core.queue < thief.old.room }
    requires seen { IsSeenTask task }
    ensures thief { thief.new ≡ record thief.old { core = received task thief.old.core } }
    ensures victim { victim.new ≡ record victim.old { core = handed task.id victim.old.core } }
{
    let moved = victim.hand_over(task.id);
    thief.receive(moved);
}
