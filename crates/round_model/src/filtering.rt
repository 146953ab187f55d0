//! What is seen of a core, and whether by that another core may steal from it, and what.

ghost use Rattle.std.specs.Prelude.{◌≡◌, ◌<◌, length};
ghost use Rattle.policy_tree.specs.Meaning.{batch_tree, meaning_of};
ghost use Rattle.policy_eval.specs.Fitting.{CoreFits, IsTask};
ghost use Rattle.policy_eval.specs.Resolved.{IsResolved, IsResolvedBatch};
ghost use Rattle.policy_eval.specs.Sights.{move_values};
ghost use Rattle.policy_eval.specs.Values.{holds as holds_at};
ghost use Rattle.round_model.specs.Choices.{may_steal as may_steal_by};
ghost use Rattle.round_model.specs.Reads.{values_of as values_by};

use crate::plan::Plan;
use crate::state::CountAndLoad;
use policy_eval::{CoreValues, Env, holds};
use policy_tree::{Batch, Policy};
use sched_base::{CoreId, Task};

/// What a policy may ask of the core that was seen so. Its constants never change, so they aren't seen.
pub fn values_of(plan: &Plan, core: CoreId, seen: CountAndLoad) -> CoreValues
    requires { core < length plan.now.consts }
    ensures { result ≡ values_by plan.now core seen }
{
    CoreValues {
        nr: seen.nr,
        load: seen.load,
        consts: *plan.consts.get(core),
    }
}

/// Whether a core of which `own` tells may steal from one of which `victim` tells.
pub fn may_steal(policy: &Policy, own: &CoreValues, victim: &CoreValues) -> bool
    requires policy { IsResolved (meaning_of policy.now) }
    requires own { CoreFits (meaning_of policy.now) own.now }
    requires victim { CoreFits (meaning_of policy.now) victim.now }
    ensures { result ≡ may_steal_by (meaning_of policy.now) own.now victim.now }
{
    holds(&policy.filter, &Env::of_pair(own, victim))
}

/// Whether the batch goes on with that thread, by these values of thief and victim.
pub fn goes_on(
    policy: &Policy,
    batch: &Batch,
    own: &CoreValues,
    other: &CoreValues,
    task: &Task,
) -> bool
    requires policy { IsResolved (meaning_of policy.now) }
    requires batch { IsResolvedBatch (meaning_of policy.now) (batch_tree batch.now) }
    requires own { CoreFits (meaning_of policy.now) own.now }
    requires other { CoreFits (meaning_of policy.now) other.now }
    requires task { IsTask (meaning_of policy.now) task.now }
    ensures { result ≡ holds_at (move_values own.now other.now task.now.weight task.now.attrs)
        (batch_tree batch.now).condition }
{
    holds(&batch.cond, &Env::of_move(own, other, task))
}
