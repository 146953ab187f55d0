//! What a history is explained to be.

ghost use Rattle.std.specs.Prelude.{◌≡◌, ◌≤◌, IfOk, length};
ghost use Rattle.sched_base.specs.declared.limits.TheConstants.{MAX_ENTRIES};
ghost use Rattle.policy_tree.specs.Meaning.{meaning_of};
ghost use Rattle.policy_eval.specs.Obligations.{MeetsHandlerObligations};
ghost use Rattle.round_model.specs.Fits.{Fits};
ghost use Rattle.round_model.specs.Limits.{IsWithinLimits};
ghost use Rattle.round_model.specs.Reads.{round_start};
ghost use Rattle.round_judge.specs.Past.{IsPastOf, OfEach};
ghost use Rattle.history_reasons.specs.Judging.{HasHistory};
ghost use Rattle.history_reasons.specs.Explanations.{IsExplanation};
ghost use Rattle.history_reasons.specs.Lines.{CanBeTold};

use crate::coming::{Coming, what_comes};
use crate::reason::Reason;
use crate::why::why_not;
use policy_tree::Policy;
use round_judge::{Past, round_due, step};
use round_model::{Entry, History, ModelMemory, Plan};
use sched_base::Pos;
use sched_history::start_behind;
use std::alloc::Global;

/// What a history comes to.
#[derive(Drop)]
pub enum Explanation {
    /// It is whole, and has so many entries.
    Whole(u32),
    /// It has so many entries, all of them legal, and it stops too soon: these may come next.
    Short(u32, Coming),
    /// The entry at this position is the first that isn't legal, for this reason, and these might have come in its
    /// place.
    Illegal(Pos, Reason, Coming),
}

/// Explains the history, which somebody else may have made, of a plan under a policy.
pub fn explain(
    alloc: Global,
    policy: &Policy,
    plan: &Plan,
    history: &History,
) -> Result<Explanation, ModelMemory>
    requires fits { Fits (meaning_of policy.now) plan.now }
    requires limits { IsWithinLimits plan.now }
    requires handlers { MeetsHandlerObligations (meaning_of policy.now) }
    requires few { length history.now ≤ MAX_ENTRIES }
    ensures is { IfOk result (IsExplanation (meaning_of policy.now) plan.now history.now) }
    ensures told { IfOk result CanBeTold }
{
    let mut past = Past::new(alloc, plan)?;
    let mut start = 0;
    for at in 0..history.len() {
        let entry = history.get(at);
        if let Some(reason) = why_not(policy, plan, &past, start, entry) {
            let coming = what_comes(alloc, policy, plan, &past, start)?;
            return Ok(Explanation::Illegal(at, reason, coming));
        }
        step(alloc, policy, plan, &mut past, *entry)?;
        start = start_behind(start, entry, at + 1);
    }
    ended(alloc, policy, plan, &past, start)
}

/// What the legal history comes to that the past stands for. Its last round starts at `start`.
fn ended(
    alloc: Global,
    policy: &Policy,
    plan: &Plan,
    past: &Past,
    start: Pos,
) -> Result<Explanation, ModelMemory>
    requires fits { Fits (meaning_of policy.now) plan.now }
    requires handlers { MeetsHandlerObligations (meaning_of policy.now) }
    requires past { IsPastOf (meaning_of policy.now) plan.now past.now }
    requires history { HasHistory plan.now past.now }
    requires start { OfEach (meaning_of policy.now) plan.now past.now (λ history. start ≡ round_start history) }
    ensures { IfOk result (λ explanation. OfEach (meaning_of policy.now) plan.now past.now (λ history.
        IsExplanation (meaning_of policy.now) plan.now history explanation)) }
{
    if past.is_complete() && !round_due(plan, past) {
        return Ok(Explanation::Whole(past.entries()));
    }
    let coming = what_comes(alloc, policy, plan, past, start)?;
    Ok(Explanation::Short(past.entries(), coming))
}
