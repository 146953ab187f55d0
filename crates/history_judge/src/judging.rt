//! Judges histories, entry by entry.

ghost use Rattle.std.specs.Prelude.{◌≤◌, IfErr, IfOk, OnOk, length};
ghost use Rattle.policy_tree.specs.Meaning.{meaning_of};
ghost use Rattle.policy_eval.specs.Obligations.{MeetsHandlerObligations, MeetsObligations};
ghost use Rattle.round_model.specs.Fits.{Fits};
ghost use Rattle.round_model.specs.Limits.{IsWithinLimits};
ghost use Rattle.round_judge.specs.Past.{StandsFor};
ghost use Rattle.round_laws.specs.MainTheorem.{KeepsLaws};
ghost use Rattle.history_judge.specs.Judgement.{IsJudgement, MustBeWhole, StopsLegal};

use crate::judgement::{ReplayFault, Replayed};
use policy_tree::Policy;
use round_judge::{Past, round_due, step, step_ok};
use round_model::{Entry, History, Plan};
use sched_base::MAX_ENTRIES;
use std::alloc::Global;

/// Judges the history, which somebody else may have made, of a plan under a policy.
pub fn replay(
    alloc: Global,
    policy: &Policy,
    plan: &Plan,
    history: &History,
) -> Result<Replayed, ReplayFault>
    requires fits { Fits (meaning_of policy.now) plan.now }
    requires limits { IsWithinLimits plan.now }
    requires handlers { MeetsHandlerObligations (meaning_of policy.now) }
    requires few { length history.now ≤ MAX_ENTRIES }
    ensures judgement { IsJudgement (meaning_of policy.now) plan.now history.now result }
    // A whole history is found to be such, unless memory is wanting.
    ensures whole { MustBeWhole (meaning_of policy.now) plan.now history.now result }
    // And where the policy meets its obligations, a whole history keeps the laws, whoever made it.
    ensures laws { MeetsObligations (meaning_of policy.now) →
        OnOk result (KeepsLaws (meaning_of policy.now) plan.now history.now) }
{
    let past = legal_past(alloc, policy, plan, history.as_slice())?;
    if past.is_complete() && !round_due(plan, &past) {
        Ok(Replayed {
            entries: history.len(),
            rounds: past.rounds(),
        })
    } else {
        Err(ReplayFault::Short(history.len()))
    }
}

/// What is kept of the entries, where each is legal after those before it.
fn legal_past(
    alloc: Global,
    policy: &Policy,
    plan: &Plan,
    entries: &[Entry],
) -> Result<Past, ReplayFault>
    requires fits { Fits (meaning_of policy.now) plan.now }
    requires limits { IsWithinLimits plan.now }
    requires handlers { MeetsHandlerObligations (meaning_of policy.now) }
    requires few { length entries.now ≤ MAX_ENTRIES }
    ensures stands { IfOk result (λ past. StandsFor (meaning_of policy.now) plan.now past entries.now) }
    ensures stops { IfErr result (StopsLegal (meaning_of policy.now) plan.now entries.now) }
{
    let mut past = Past::new(alloc, plan)?;
    let mut position = 0;
    for entry in entries {
        if !step_ok(policy, plan, &past, entry) {
            return Err(ReplayFault::Illegal(position));
        }
        step(alloc, policy, plan, &mut past, *entry)?;
        position += 1;
    }
    Ok(past)
}
