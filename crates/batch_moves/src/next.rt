//! Which thread is moved next.

ghost use Rattle.std.specs.Prelude.{◌≡◌, ◌≤◌, IfSome, Some};
ghost use Rattle.sched_base.specs.declared.limits.TheConstants.{MAX_LOAD, MAX_THREADS};
ghost use Rattle.policy_tree.specs.Meaning.{batch_tree, meaning_of};
ghost use Rattle.policy_eval.specs.Orders.{best_of};
ghost use Rattle.policy_eval.specs.Ranges.{AreIn, attribute_ranges};
ghost use Rattle.policy_eval.specs.Resolved.{IsResolved, IsResolvedBatch};
ghost use Rattle.round_model.specs.Attempts.{first_of, next_of};
ghost use Rattle.round_model.specs.Cores.{load_of, thread_count};
ghost use Rattle.round_model.specs.Work.{before};
ghost use Rattle.batch_moves.specs.Sides.{InEachPlan, MayTake};
ghost use Rattle.batch_moves.specs.Code.Moved.{present_values};

use core_state::CoreState;
use policy_eval::CoreValues;
use policy_tree::{Batch, Policy};
use round_model::{goes_on, may_steal};
use sched_base::{MAX_ATTRIBUTES, Task};

/// The thread that is moved first, by the cores as they are.
pub(crate) fn first(
    policy: &Policy,
    own: &[i32; MAX_ATTRIBUTES],
    other: &[i32; MAX_ATTRIBUTES],
    thief: &CoreState,
    victim: &CoreState,
) -> Option<Task>
    requires policy { IsResolved (meaning_of policy.now) }
    requires own { AreIn (attribute_ranges policy.now.core_attrs) own.now }
    requires other { AreIn (attribute_ranges policy.now.core_attrs) other.now }
    requires may { MayTake (meaning_of policy.now) thief.now victim.now }
    ensures first { InEachPlan own.now other.now (λ plan a v.
        result ≡ first_of (meaning_of policy.now) plan a v thief.now.core victim.now.core) }
    ensures best { IfSome result (λ t.
        best_of (before (meaning_of policy.now).steal) victim.now.core.queue ≡ Some t) }
{
    let own = present(thief, own);
    let other = present(victim, other);
    if may_steal(policy, &own, &other) {
        best(policy, victim)
    } else {
        None
    }
}

/// The thread that the batch moves next, by the cores as they are.
pub(crate) fn next(
    policy: &Policy,
    batch: &Batch,
    own: &[i32; MAX_ATTRIBUTES],
    other: &[i32; MAX_ATTRIBUTES],
    thief: &CoreState,
    victim: &CoreState,
) -> Option<Task>
    requires policy { IsResolved (meaning_of policy.now) }
    requires batch { IsResolvedBatch (meaning_of policy.now) (batch_tree batch.now) }
    requires own { AreIn (attribute_ranges policy.now.core_attrs) own.now }
    requires other { AreIn (attribute_ranges policy.now.core_attrs) other.now }
    requires may { MayTake (meaning_of policy.now) thief.now victim.now }
    ensures next { InEachPlan own.now other.now (λ plan a v.
        result ≡ next_of (meaning_of policy.now) plan a v (batch_tree batch.now) thief.now.core victim.now.core) }
    ensures best { IfSome result (λ t.
        best_of (before (meaning_of policy.now).steal) victim.now.core.queue ≡ Some t) }
{
    let task = best(policy, victim)?;
    let own = present(thief, own);
    let other = present(victim, other);
    if goes_on(policy, batch, &own, &other, &task) {
        Some(task)
    } else {
        None
    }
}

/// The best thread of the queue by the steal keys.
fn best(policy: &Policy, victim: &CoreState) -> Option<Task>
    requires { IsResolved (meaning_of policy.now) }
    ensures { result ≡ best_of (before (meaning_of policy.now).steal) victim.now.core.queue }
{
    victim.queue().peek_for_steal(&policy.steal).copied()
}

/// What a policy may ask of the core as it is, with these constants.
fn present(state: &CoreState, consts: &[i32; MAX_ATTRIBUTES]) -> CoreValues
    requires few { thread_count state.now.core ≤ MAX_THREADS }
    requires light { load_of state.now.core ≤ MAX_LOAD }
    ensures { result ≡ present_values consts.now state.now.core }
{
    CoreValues {
        nr: state.nr(),
        load: state.load(),
        consts: *consts,
    }
}
