//! Whether the cores are at rest, and how far apart their loads are then.

ghost use Rattle.std.specs.Prelude.{◌≡◌, ◌<◌, ◌≤◌, All, length, map};
ghost use Rattle.sched_base.specs.declared.limits.TheConstants.{MAX_CORES};
ghost use Rattle.policy_tree.specs.Meaning.{meaning_of};
ghost use Rattle.policy_eval.specs.Resolved.{IsResolved};
ghost use Rattle.round_model.specs.Attempts.{present_values};
ghost use Rattle.round_model.specs.Choices.{is_candidate};
ghost use Rattle.round_model.specs.Cores.{load_of};
ghost use Rattle.round_judge.specs.Readable.{IsCountable};
ghost use Rattle.sched_report.specs.Code.Openings.{AllFit, core_at};
ghost use Rattle.sched_report.specs.Rests.{gap_at_rest as gap_told, greatest as greatest_of, has_victim as may_take};
ghost use Rattle.sched_report.specs.Rests.{is_restless as are_restless, width_of as width_between};

use policy_eval::CoreValues;
use policy_tree::Policy;
use round_model::{Plan, State, may_steal, values_of};
use sched_base::CoreId;

/// Where no core may steal from another, how far the greatest load is above the least.
#[tactic(auto, unfolding(crate::specs::Rests::gap_at_rest))]
pub(crate) fn gap_at_rest(policy: &Policy, plan: &Plan, state: &State, loads: &[u64]) -> Option<u64>
    requires policy { IsResolved (meaning_of policy.now) }
    requires cores { (length state.now ≡ plan.now.cores) × (length plan.now.consts ≡ plan.now.cores) }
    requires countable { All IsCountable state.now }
    requires fits { AllFit (meaning_of policy.now) plan.now (core_at state.now) }
    requires loads { loads.now ≡ map load_of state.now }
    ensures { result ≡ gap_told (meaning_of policy.now) plan.now (core_at state.now) }
{
    if is_restless(policy, plan, state) {
        return None;
    }
    Some(width_of(loads))
}

/// Whether some core may steal from another.
fn is_restless(policy: &Policy, plan: &Plan, state: &State) -> bool
    requires policy { IsResolved (meaning_of policy.now) }
    requires cores { (length state.now ≡ plan.now.cores) × (length plan.now.consts ≡ plan.now.cores) }
    requires countable { All IsCountable state.now }
    requires fits { AllFit (meaning_of policy.now) plan.now (core_at state.now) }
    ensures { result ≡ are_restless (meaning_of policy.now) plan.now (core_at state.now) }
{
    for thief in 0..state.len() {
        if has_victim(policy, plan, state, thief) {
            return true;
        }
    }
    false
}

/// Whether the core may steal from some other.
fn has_victim(policy: &Policy, plan: &Plan, state: &State, thief: CoreId) -> bool
    requires policy { IsResolved (meaning_of policy.now) }
    requires cores { (length state.now ≡ plan.now.cores) × (length plan.now.consts ≡ plan.now.cores) }
    requires countable { All IsCountable state.now }
    requires fits { AllFit (meaning_of policy.now) plan.now (core_at state.now) }
    requires thief { thief < plan.now.cores }
    ensures { result ≡ may_take (meaning_of policy.now) plan.now (core_at state.now) thief }
{
    for victim in 0..state.len() {
        if is_victim(policy, plan, state, thief, victim) {
            return true;
        }
    }
    false
}

/// Whether the one core may steal from the other. None steals from itself.
fn is_victim(policy: &Policy, plan: &Plan, state: &State, thief: CoreId, victim: CoreId) -> bool
    requires policy { IsResolved (meaning_of policy.now) }
    requires cores { (length state.now ≡ plan.now.cores) × (length plan.now.consts ≡ plan.now.cores) }
    requires countable { All IsCountable state.now }
    requires fits { AllFit (meaning_of policy.now) plan.now (core_at state.now) }
    requires inside { (thief < plan.now.cores) × (victim < plan.now.cores) }
    ensures { result ≡ is_candidate (meaning_of policy.now) (present_values plan.now (core_at state.now)) thief victim }
{
    if thief == victim {
        return false;
    }
    let own = present(plan, state, thief);
    may_steal(policy, &own, &present(plan, state, victim))
}

/// What the filter sees of the core.
fn present(plan: &Plan, state: &State, core: CoreId) -> CoreValues
    requires cores { (core < length state.now) × (core < length plan.now.consts) }
    requires countable { All IsCountable state.now }
    ensures { result ≡ present_values plan.now (core_at state.now) core }
{
    values_of(plan, core, state.get(core).seen())
}

/// How far the greatest of these loads is above the least, and 0 where there is none.
fn width_of(loads: &[u64]) -> u64
    ensures { result ≡ width_between loads.now }
{
    let top = greatest(loads);
    let mut width = 0;
    for load in loads {
        width = u64::max(width, top.saturating_sub(*load));
    }
    width
}

/// The greatest of these loads, and 0 where there is none.
fn greatest(loads: &[u64]) -> u64
    ensures { result ≡ greatest_of loads.now }
{
    let mut top = 0;
    for load in loads {
        top = u64::max(top, *load);
    }
    top
}
