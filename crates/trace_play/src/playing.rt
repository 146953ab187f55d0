//! Plays a trace's text.

ghost use Rattle.std.specs.Prelude.{◌<◌, ◌≡◌, IfOk, length};
ghost use Rattle.policy_tree.specs.Meaning.{meaning_of};
ghost use Rattle.policy_eval.specs.Obligations.{MeetsHandlerObligations};
ghost use Rattle.policy_eval.specs.Resolved.{IsResolved};
ghost use Rattle.round_model.specs.Fits.{Fits};
ghost use Rattle.round_model.specs.Limits.{IsWithinLimits};
ghost use Rattle.serial_steps.specs.SerialEnds.{IsPlayed};
ghost use Rattle.history_merge.specs.Merged.{CanBeWritten};
ghost use Rattle.trace_play.specs.Plays.{IsPlayOf, IsShown, closed_of, played_by};

use crate::answer::PlayAnswer;
use crate::cores::PlayedCores;
use crate::planning::{PlanStop, plan_text};
use core_worker::{PlayFault, play_rounds};
use history_merge::{HistoryMemory, merge};
use policy_checker::AcceptedPolicy;
use policy_tree::Policy;
use round_model::Plan;
use serial_steps::Played;
use std::alloc::Global;

/// Why a trace wasn't played.
#[derive(Clone, Copy, Debug)]
pub enum PlayMemory {
    /// There was no memory for the trace, the plan, the cores or the history.
    Memory,
}

impl From<HistoryMemory> for PlayMemory {
    ghost use Rattle.trace_play.specs.declared.playing.PlayMemory.TheVariants.{Memory};

    ghost from_gives = { λ _ fault. fault ≡ Memory };

    fn from(_fault: HistoryMemory) -> PlayMemory {
        PlayMemory::Memory
    }
}

/// What serial play of the text under the policy comes to.
pub fn play_text(
    alloc: Global,
    policy: &AcceptedPolicy,
    text: &[u8],
) -> Result<PlayAnswer, PlayMemory>
    requires { length text.now < u32.MAX }
    ensures play { IfOk result (IsPlayOf (meaning_of policy.now) text.now) }
    ensures shown { IfOk result IsShown }
{
    play_under(alloc, policy.policy(), text)
}

/// The same under a policy of which no more is known than that its handlers are right.
pub fn play_under(alloc: Global, policy: &Policy, text: &[u8]) -> Result<PlayAnswer, PlayMemory>
    requires resolved { IsResolved (meaning_of policy.now) }
    requires handlers { MeetsHandlerObligations (meaning_of policy.now) }
    requires small { length text.now < u32.MAX }
    ensures play { IfOk result (IsPlayOf (meaning_of policy.now) text.now) }
    ensures shown { IfOk result IsShown }
{
    match plan_text(alloc, policy, text) {
        Ok(plan) => Ok(PlayAnswer::Played(play_cores(alloc, policy, &plan)?)),
        Err(PlanStop::Broken(fault)) => Ok(PlayAnswer::Broken(fault)),
        Err(PlanStop::Memory) => Err(PlayMemory::Memory),
    }
}

/// What serial play of the plan under the policy comes to: the running cores that played it.
pub fn play_cores(alloc: Global, policy: &Policy, plan: &Plan) -> Result<PlayedCores, PlayMemory>
    requires fits { Fits (meaning_of policy.now) plan.now }
    requires limits { IsWithinLimits plan.now }
    requires handlers { MeetsHandlerObligations (meaning_of policy.now) }
    ensures play { IfOk result (λ left. IsPlayed (meaning_of policy.now) plan.now (played_by left)) }
    ensures cores { IfOk result (λ left. length (closed_of left).cores ≡ plan.now.cores) }
    ensures shown { IfOk result (λ left. CanBeWritten (closed_of left)) }
{
    match play_rounds(alloc, policy, plan) {
        Ok(closed) => Ok(PlayedCores::Whole(closed)),
        Err(PlayFault::HistoryFull(closed)) => Ok(PlayedCores::Full(closed)),
        Err(PlayFault::Memory) => Err(PlayMemory::Memory),
    }
}

/// What serial play of the plan under the policy comes to, as a history: the logs of the cores are merged.
pub fn play_plan(alloc: Global, policy: &Policy, plan: &Plan) -> Result<Played, PlayMemory>
    requires fits { Fits (meaning_of policy.now) plan.now }
    requires limits { IsWithinLimits plan.now }
    requires handlers { MeetsHandlerObligations (meaning_of policy.now) }
    ensures { IfOk result (IsPlayed (meaning_of policy.now) plan.now) }
{
    match play_cores(alloc, policy, plan)? {
        PlayedCores::Whole(closed) => Ok(Played::Whole(merge(alloc, &closed)?)),
        PlayedCores::Full(closed) => Ok(Played::Full(merge(alloc, &closed)?)),
    }
}
