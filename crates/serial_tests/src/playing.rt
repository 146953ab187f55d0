//! One plan, played by plain lists and by cores that run.

ghost use Rattle.policy_tree.specs.Meaning.{meaning_of};
ghost use Rattle.policy_eval.specs.Obligations.{MeetsHandlerObligations};
ghost use Rattle.round_model.specs.Fits.{Fits};
ghost use Rattle.round_model.specs.Limits.{IsWithinLimits};

use history_merge::merge;
use policy_tree::Policy;
use round_model::{History, Plan};
use serial_steps::Played;
use std::alloc::Global;

/// The whole history that plain lists come to.
pub(crate) fn by_lists(alloc: Global, policy: &Policy, plan: &Plan) -> Option<History>
    requires fits { Fits (meaning_of policy.now) plan.now }
    requires limits { IsWithinLimits plan.now }
    requires handlers { MeetsHandlerObligations (meaning_of policy.now) }
{
    match serial_play::play_rounds(alloc, policy, plan) {
        Ok(Played::Whole(history)) => Some(history),
        _ => None,
    }
}

/// The whole history whose logs the running cores come to.
pub(crate) fn by_cores(alloc: Global, policy: &Policy, plan: &Plan) -> Option<History>
    requires fits { Fits (meaning_of policy.now) plan.now }
    requires limits { IsWithinLimits plan.now }
    requires handlers { MeetsHandlerObligations (meaning_of policy.now) }
{
    let Ok(closed) = core_worker::play_rounds(alloc, policy, plan) else {
        return None;
    };
    let Ok(history) = merge(alloc, &closed) else {
        return None;
    };
    Some(history)
}
