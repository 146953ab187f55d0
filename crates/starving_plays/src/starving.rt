//! Whom a history starves.

ghost use Rattle.std.specs.Prelude.{◌≡◌, ◌≤◌, IfOk, length};
ghost use Rattle.policy_tree.specs.Meaning.{meaning_of};
ghost use Rattle.policy_eval.specs.Obligations.{MeetsHandlerObligations};
ghost use Rattle.round_model.specs.Fits.{Fits};
ghost use Rattle.round_model.specs.Legal.{Legal};
ghost use Rattle.round_model.specs.Limits.{IsWithinLimits};
ghost use Rattle.starving_plays.specs.Code.{IsStarvedIn};

use crate::coming_back::{opening_of, past_of, return_of};
use crate::hunger::first_hungry;
use policy_tree::Policy;
use round_model::{Entry, ModelMemory, Plan};
use sched_base::{MAX_ENTRIES, ThreadId};
use std::alloc::Global;

/// A thread that waits for ever.
#[derive(Clone, Copy)]
pub(crate) struct Starved {
    pub(crate) thread: ThreadId,
    /// The round that begins with the core as the watched one did, the thread not having run between.
    pub(crate) round: u32,
}

/// The thread that the history starves, if it comes back and starves one.
pub(crate) fn starved_in(
    alloc: Global,
    policy: &Policy,
    plan: &Plan,
    history: &[Entry],
) -> Result<Option<Starved>, ModelMemory>
    requires fits { Fits (meaning_of policy.now) plan.now }
    requires limits { IsWithinLimits plan.now }
    requires handlers { MeetsHandlerObligations (meaning_of policy.now) }
    requires legal { Legal (meaning_of policy.now) plan.now history.now }
    requires few { length history.now ≤ MAX_ENTRIES }
    requires alone { plan.now.cores ≡ 1 }
    ensures { IfOk result (IsStarvedIn (meaning_of policy.now) plan.now history.now) }
{
    let Some(low) = opening_of(history) else {
        return Ok(None);
    };
    let (front, behind) = history.split_at(low);
    let past = past_of(alloc, policy, plan, front)?;
    let core = past.state().get(0);
    let Some(back) = return_of(alloc, policy, plan, history, core)? else {
        return Ok(None);
    };
    let (between, _rest) = behind.split_at(back.at as usize - low);
    match first_hungry(core.queue.as_slice(), between) {
        Some(thread) => Ok(Some(Starved {
            thread,
            round: back.round,
        })),
        None => Ok(None),
    }
}
