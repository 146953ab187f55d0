//! Which entries may come next.

ghost use Rattle.std.specs.Prelude.{◌≡◌, ◌<◌, ◌≤◌, [], IfOk, OnOk, length, replicate};
ghost use Rattle.sched_base.specs.declared.limits.TheConstants.{MAX_CORES};
ghost use Rattle.policy_tree.specs.Meaning.{meaning_of};
ghost use Rattle.policy_eval.specs.Obligations.{MeetsHandlerObligations};
ghost use Rattle.round_model.specs.Fits.{Fits};
ghost use Rattle.round_judge.specs.Past.{IsPastOf, OfEach};
ghost use Rattle.history_reasons.specs.Judging.{HasHistory};
ghost use Rattle.history_reasons.specs.Next.{AreNext, HaveTurns};

use policy_tree::Policy;
use round_judge::{Past, round_due};
use round_model::{Entry, History, ModelMemory, Plan};
use sched_base::Reads;
use serial_play::next_step;
use serial_steps::NextStep;
use std::alloc::Global;

/// The entries that may come next: one of each core whose turn of the open round isn't over, by reads made just now,
/// and the next round where it is due.
pub fn next_entries(
    alloc: Global,
    policy: &Policy,
    plan: &Plan,
    past: &Past,
) -> Result<History, ModelMemory>
    requires fits { Fits (meaning_of policy.now) plan.now }
    requires handlers { MeetsHandlerObligations (meaning_of policy.now) }
    requires past { IsPastOf (meaning_of policy.now) plan.now past.now }
    requires history { HasHistory plan.now past.now }
    ensures { IfOk result (λ next. OfEach (meaning_of policy.now) plan.now past.now (λ history.
        AreNext (meaning_of policy.now) plan.now history next)) }
{
    let mut next = History::from_vec(Vec::new(alloc));
    add_turns(policy, plan, past, &mut next)?;
    if past.is_complete() && round_due(plan, past) {
        next.push(Entry::Round {
            number: past.rounds() + 1,
        })?;
    }
    Ok(next)
}

/// Adds the next entry of each core whose turn isn't over. Before the first round none has a turn.
fn add_turns(
    policy: &Policy,
    plan: &Plan,
    past: &Past,
    next: &mut History,
) -> Result<(), ModelMemory>
    requires fits { Fits (meaning_of policy.now) plan.now }
    requires handlers { MeetsHandlerObligations (meaning_of policy.now) }
    requires past { IsPastOf (meaning_of policy.now) plan.now past.now }
    requires history { HasHistory plan.now past.now }
    requires empty { next.old ≡ [] }
    ensures few { OnOk result (length next.new ≤ plan.now.cores) }
    ensures turns { OnOk result (OfEach (meaning_of policy.now) plan.now past.now (λ history.
        HaveTurns (meaning_of policy.now) plan.now history plan.now.cores next.new)) }
{
    if past.rounds() == 0 {
        return Ok(());
    }
    let now = look_now(plan, past);
    for core in 0..plan.cores {
        if let NextStep::Adds(entry) = next_step(policy, plan, past, core, &now, Some(now)) {
            next.push(entry)?;
        }
    }
    Ok(())
}

/// A look at all cores that is made just now.
fn look_now(plan: &Plan, past: &Past) -> Reads
    requires { plan.now.cores ≤ MAX_CORES }
    ensures { result ≡ replicate plan.now.cores past.now.entries }
{
    let mut reads = Reads::empty();
    for _at in 0..plan.cores {
        reads.push(past.entries());
    }
    reads
}
