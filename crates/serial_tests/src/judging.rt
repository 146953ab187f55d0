//! Whether histories are as they should be.

ghost use Rattle.policy_tree.specs.Meaning.{meaning_of};
ghost use Rattle.policy_eval.specs.Obligations.{MeetsHandlerObligations};
ghost use Rattle.round_model.specs.Fits.{Fits};
ghost use Rattle.round_model.specs.Limits.{IsWithinLimits};

use crate::comparing::are_same;
use history_judge::replay;
use policy_tree::Policy;
use round_model::{Entry, History, Plan};
use sched_base::MAX_ENTRIES;
use std::alloc::Global;

/// Whether there is a history, which is whole and the same as that of plain lists.
pub(crate) fn agrees(
    alloc: Global,
    policy: &Policy,
    plan: &Plan,
    history: Option<History>,
    plain: &History,
) -> bool
    requires fits { Fits (meaning_of policy.now) plan.now }
    requires limits { IsWithinLimits plan.now }
    requires handlers { MeetsHandlerObligations (meaning_of policy.now) }
{
    match history {
        Some(history) => is_whole(alloc, policy, plan, &history) && are_same(&history, plain),
        None => false,
    }
}

/// Whether there is a history, which is whole.
pub(crate) fn comes_whole(
    alloc: Global,
    policy: &Policy,
    plan: &Plan,
    history: Option<History>,
) -> bool
    requires fits { Fits (meaning_of policy.now) plan.now }
    requires limits { IsWithinLimits plan.now }
    requires handlers { MeetsHandlerObligations (meaning_of policy.now) }
{
    match history {
        Some(history) => is_whole(alloc, policy, plan, &history),
        None => false,
    }
}

/// Whether the history is judged to be whole.
pub(crate) fn is_whole(alloc: Global, policy: &Policy, plan: &Plan, history: &History) -> bool
    requires fits { Fits (meaning_of policy.now) plan.now }
    requires limits { IsWithinLimits plan.now }
    requires handlers { MeetsHandlerObligations (meaning_of policy.now) }
{
    history.len() <= MAX_ENTRIES && replay(alloc, policy, plan, history).is_ok()
}

/// Whether the history has a steal of several threads.
pub(crate) fn has_batches(history: &History) -> bool {
    history.as_slice().iter().any(|entry| moves_several(entry))
}

/// Whether the entry is a steal of several threads.
fn moves_several(entry: &Entry) -> bool {
    match entry {
        Entry::Steal { threads, .. } => threads.len() > 1,
        _ => false,
    }
}

/// Whether there is a history, which has a steal that failed.
pub(crate) fn has_fails(history: &Option<History>) -> bool {
    match history {
        Some(history) => history.as_slice().iter().any(|entry| is_fail(entry)),
        None => false,
    }
}

/// Whether the entry is a steal that failed.
fn is_fail(entry: &Entry) -> bool {
    match entry {
        Entry::Fail { .. } => true,
        _ => false,
    }
}
