//! Entries added one after another, each where it is legal next.

ghost use Rattle.std.specs.Prelude.{◌≡◌, ◌≤◌, IfOk, length};
ghost use Rattle.policy_tree.specs.Meaning.{meaning_of};
ghost use Rattle.policy_eval.specs.Obligations.{MeetsHandlerObligations};
ghost use Rattle.round_model.specs.Fits.{Fits};
ghost use Rattle.round_model.specs.Limits.{IsWithinLimits};
ghost use Rattle.model_tests.specs.Plans.{two_cores};
ghost use Rattle.model_tests.specs.Policies.{basic};
ghost use Rattle.model_tests.specs.Steps.{IsLegalLength};

use policy_tree::Policy;
use round_judge::{Past, step, step_ok};
use round_model::{Entry, ModelMemory, Plan};
use sched_base::MAX_ENTRIES;
use std::alloc::Global;

/// How many of the entries are legal one after another, from the first on.
pub fn legal_length(
    alloc: Global,
    policy: &Policy,
    plan: &Plan,
    entries: &[Entry],
) -> Result<u32, ModelMemory>
    requires fits { Fits (meaning_of policy.now) plan.now }
    requires limits { IsWithinLimits plan.now }
    requires handlers { MeetsHandlerObligations (meaning_of policy.now) }
    requires few { length entries.now ≤ MAX_ENTRIES }
    ensures { IfOk result (IsLegalLength (meaning_of policy.now) plan.now entries.now) }
{
    let mut past = Past::new(alloc, plan)?;
    let mut added = 0;
    for entry in entries {
        if !step_ok(policy, plan, &past, entry) {
            return Ok(added);
        }
        step(alloc, policy, plan, &mut past, *entry)?;
        added += 1;
    }
    Ok(added)
}

/// How many of the entries are legal one after another under the basic policy, with two cores and two threads without
/// end.
pub fn legal_length_of_two(
    alloc: Global,
    policy: &Policy,
    plan: &Plan,
    entries: &[Entry],
) -> Result<u32, ModelMemory>
    requires policy { meaning_of policy.now ≡ basic }
    requires plan { plan.now ≡ two_cores }
    requires few { length entries.now ≤ MAX_ENTRIES }
    ensures { IfOk result (IsLegalLength basic two_cores entries.now) }
{
    let count = legal_length(alloc, policy, plan, entries)?;
    Ok(count)
}
