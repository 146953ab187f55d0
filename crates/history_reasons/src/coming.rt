//! What may come behind a history, and where its round starts.

ghost use Rattle.std.specs.Prelude.{◌≡◌, IfOk};
ghost use Rattle.policy_tree.specs.Meaning.{meaning_of};
ghost use Rattle.policy_eval.specs.Obligations.{MeetsHandlerObligations};
ghost use Rattle.round_model.specs.Fits.{Fits};
ghost use Rattle.round_model.specs.Reads.{round_start};
ghost use Rattle.round_judge.specs.Past.{IsPastOf, OfEach};
ghost use Rattle.history_reasons.specs.Explanations.{MayCome};
ghost use Rattle.history_reasons.specs.Judging.{HasHistory};

use crate::next::next_entries;
use policy_tree::Policy;
use round_judge::Past;
use round_model::{History, ModelMemory, Plan};
use sched_base::{MAX_ENTRIES, Pos};
use std::alloc::Global;

/// What may come next in a history.
#[derive(Drop)]
pub struct Coming {
    /// The number of entries up to and including the last Round: the reads of what comes are from there on.
    pub start: Pos,
    /// The entries that may come: one of each core whose turn isn't over, and the next round where it is due. There
    /// are none where the history has no room for one more.
    pub entries: History,
}

/// What may come next behind the history that the past stands for, whose open round starts at `start`.
pub(crate) fn what_comes(
    alloc: Global,
    policy: &Policy,
    plan: &Plan,
    past: &Past,
    start: Pos,
) -> Result<Coming, ModelMemory>
    requires fits { Fits (meaning_of policy.now) plan.now }
    requires handlers { MeetsHandlerObligations (meaning_of policy.now) }
    requires past { IsPastOf (meaning_of policy.now) plan.now past.now }
    requires history { HasHistory plan.now past.now }
    requires start { OfEach (meaning_of policy.now) plan.now past.now (λ history. start ≡ round_start history) }
    ensures { IfOk result (λ coming. OfEach (meaning_of policy.now) plan.now past.now (λ history.
        MayCome (meaning_of policy.now) plan.now history coming)) }
{
    let entries = if past.entries() < MAX_ENTRIES {
        next_entries(alloc, policy, plan, past)?
    } else {
        History::from_vec(Vec::new(alloc))
    };
    Ok(Coming { start, entries })
}
