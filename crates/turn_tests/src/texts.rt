//! Plans and histories as texts.

ghost use Rattle.std.specs.Prelude.{◌<◌, ◌≤◌, IfSome, length};
ghost use Rattle.sched_base.specs.declared.limits.TheConstants.{MAX_ENTRIES};
ghost use Rattle.policy_tree.specs.Meaning.{meaning_of};
ghost use Rattle.policy_eval.specs.Resolved.{IsResolved};
ghost use Rattle.round_model.specs.Fits.{Fits};
ghost use Rattle.round_model.specs.Legal.{Legal};
ghost use Rattle.round_model.specs.Limits.{IsWithinLimits};

use job_trace::{plan, read_trace};
use policy_tree::Policy;
use round_model::{Entry, Plan};
use sched_history::put_history;
use sched_io::MemorySink;
use std::alloc::Global;

/// The plan of the text, if it has one and there is memory for it.
pub(crate) fn plan_of_text(alloc: Global, policy: &Policy, text: &str) -> Option<Plan>
    requires { IsResolved (meaning_of policy.now) }
    ensures fits { IfSome result (Fits (meaning_of policy.now)) }
    ensures limits { IfSome result IsWithinLimits }
{
    let bytes = text.as_bytes();
    if bytes.len() >= u32::MAX as usize {
        return None;
    }
    let Ok(trace) = read_trace(alloc, bytes) else {
        return None;
    };
    let Ok(plan) = plan(alloc, &trace, policy) else {
        return None;
    };
    Some(plan)
}

/// Room for the text of a history.
const ROOM: u64 = 4096;

/// The text of the history, if there is memory and room for it.
pub(crate) fn spelled(
    alloc: Global,
    policy: &Policy,
    plan: &Plan,
    history: &[Entry],
) -> Option<MemorySink>
    requires fits { Fits (meaning_of policy.now) plan.now }
    requires limits { IsWithinLimits plan.now }
    requires legal { Legal (meaning_of policy.now) plan.now history.now }
    requires few { length history.now ≤ MAX_ENTRIES }
{
    let Ok(mut out) = MemorySink::new(alloc, ROOM, Vec::new(alloc)) else {
        return None;
    };
    match put_history(&mut out, history, plan.cores) {
        Ok(()) => Some(out),
        Err(_fault) => None,
    }
}

/// Whether the history is the one of the text, and there was memory for it.
pub(crate) fn is_spelled(
    alloc: Global,
    policy: &Policy,
    plan: &Plan,
    history: &[Entry],
    text: &str,
) -> bool
    requires fits { Fits (meaning_of policy.now) plan.now }
    requires limits { IsWithinLimits plan.now }
    requires legal { Legal (meaning_of policy.now) plan.now history.now }
    requires few { length history.now ≤ MAX_ENTRIES }
{
    match spelled(alloc, policy, plan, history) {
        Some(out) => out.bytes() == text.as_bytes(),
        None => false,
    }
}
