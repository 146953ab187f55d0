//! The search.

ghost use Rattle.std.specs.Prelude.{◌≡◌, ◌<◌, ◌≤◌, ◌↔◌, IfOk, IsTrue, length, nat_lt};
ghost use Rattle.policy_tree.specs.Meaning.{meaning_of};
ghost use Rattle.policy_eval.specs.Obligations.{MeetsHandlerObligations};
ghost use Rattle.policy_eval.specs.Resolved.{IsResolved};
ghost use Rattle.round_model.specs.Fits.{Fits};
ghost use Rattle.round_model.specs.Limits.{IsWithinLimits};
ghost use Rattle.starving_plays.specs.declared.coming_back.TheConstants.{WATCHED_FROM};
ghost use Rattle.starving_plays.specs.Searches.{IsFound, IsFoundBy, IsFoundOf, IsFoundUnder};
ghost use Rattle.starving_plays.specs.Starving.{IsLoneCrowd};

use crate::coming_back::WATCHED_FROM;
use crate::starving::{Starved, starved_in};
use crate::traces::{Crowd, trace_text, weights_of};
use policy_tree::Policy;
use round_model::{Plan, Planned};
use sched_base::ThreadId;
use serial_steps::Played;
use std::alloc::Global;
use trace_play::{PlanStop, PlayMemory, plan_text, play_plan};

/// A trace under which a thread waits for ever.
#[derive(Drop)]
pub struct Starving {
    /// The trace, as a text that is read as one.
    pub trace: Vec<u8>,
    /// The thread.
    pub thread: ThreadId,
    /// A round that begins with the core as it was when the watched round began, the thread not having run between.
    pub round: u32,
}

/// Looks for a trace of threads without end of which one waits for ever: two of the least weight, one of the least and
/// one of the greatest, and three of the least.
pub fn starving_play(alloc: Global, policy: &Policy) -> Result<Option<Starving>, PlayMemory>
    requires resolved { IsResolved (meaning_of policy.now) }
    requires handlers { MeetsHandlerObligations (meaning_of policy.now) }
    ensures { IfOk result (IsFound (meaning_of policy.now)) }
{
    let (least, greatest) = weights_of(policy.load);
    let alike = Crowd {
        first: least,
        second: least,
        third: None,
    };
    if let Some(starving) = starving_of(alloc, policy, alike)? {
        return Ok(Some(starving));
    }
    let unlike = Crowd {
        first: least,
        second: greatest,
        third: None,
    };
    if let Some(starving) = starving_of(alloc, policy, unlike)? {
        return Ok(Some(starving));
    }
    let three = Crowd {
        first: least,
        second: least,
        third: Some(least),
    };
    starving_of(alloc, policy, three)
}

/// What serial play of the trace of such threads starves.
fn starving_of(alloc: Global, policy: &Policy, crowd: Crowd) -> Result<Option<Starving>, PlayMemory>
    requires resolved { IsResolved (meaning_of policy.now) }
    requires handlers { MeetsHandlerObligations (meaning_of policy.now) }
    ensures { IfOk result (IsFoundOf (meaning_of policy.now) crowd) }
{
    let Ok(trace) = trace_text(alloc, crowd) else {
        return Err(PlayMemory::Memory);
    };
    match starved_under(alloc, policy, trace.as_slice())? {
        None => Ok(None),
        Some(Starved { thread, round }) => Ok(Some(Starving {
            trace,
            thread,
            round,
        })),
    }
}

/// The thread that serial play of the trace of this text starves.
fn starved_under(alloc: Global, policy: &Policy, text: &[u8]) -> Result<Option<Starved>, PlayMemory>
    requires resolved { IsResolved (meaning_of policy.now) }
    requires handlers { MeetsHandlerObligations (meaning_of policy.now) }
    requires small { length text.now < u32.MAX }
    ensures { IfOk result (IsFoundUnder (meaning_of policy.now) text.now) }
{
    match plan_text(alloc, policy, text) {
        Ok(plan) => starved_by(alloc, policy, &plan),
        Err(PlanStop::Broken(_fault)) => Ok(None),
        Err(PlanStop::Memory) => Err(PlayMemory::Memory),
    }
}

/// The thread that serial play of the plan starves.
fn starved_by(alloc: Global, policy: &Policy, plan: &Plan) -> Result<Option<Starved>, PlayMemory>
    requires fits { Fits (meaning_of policy.now) plan.now }
    requires limits { IsWithinLimits plan.now }
    requires handlers { MeetsHandlerObligations (meaning_of policy.now) }
    ensures { IfOk result (IsFoundBy (meaning_of policy.now) plan.now) }
{
    if !is_lone_crowd(plan) {
        return Ok(None);
    }
    match play_plan(alloc, policy, plan)? {
        Played::Whole(history) => match starved_in(alloc, policy, plan, history.as_slice()) {
            Ok(starved) => Ok(starved),
            Err(_fault) => Err(PlayMemory::Memory),
        },
        Played::Full(_history) => Ok(None),
    }
}

/// Whether the plan has one core, and all its threads come before the watched round.
fn is_lone_crowd(plan: &Plan) -> bool
    ensures { IsTrue result ↔ IsLoneCrowd plan.now }
{
    plan.cores == 1
        && plan
            .threads
            .as_slice()
            .iter()
            .all(|thread| comes_early(thread))
}

/// Whether the thread comes before the watched round.
fn comes_early(thread: &Planned) -> bool
    ensures { result ≡ nat_lt thread.now.round WATCHED_FROM }
{
    thread.round < WATCHED_FROM
}
