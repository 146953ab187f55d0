//! Simulates a trace's text.

ghost use Rattle.std.specs.Prelude.{◌<◌, IfOk, length};
ghost use Rattle.policy_tree.specs.Meaning.{meaning_of};
ghost use Rattle.policy_eval.specs.Obligations.{MeetsHandlerObligations};
ghost use Rattle.round_model.specs.Fits.{Fits};
ghost use Rattle.round_model.specs.Limits.{IsWithinLimits};
ghost use Rattle.trace_simulation.specs.Simulations.{IsShown, IsSimulationOf, IsWasteOf, WastesPlan};

use crate::answer::{PlayedWaste, SimulationAnswer};
use crate::memory::SimulationMemory;
use policy_checker::PlayablePolicy;
use policy_tree::Policy;
use round_model::Plan;
use sched_report::waste;
use serial_steps::Played;
use std::alloc::Global;
use trace_play::{PlanStop, PlayAnswer, plan_text, play_plan, play_under};

/// The serial history of the trace that the text spells, under a policy that can be played.
pub fn simulate_text(
    alloc: Global,
    policy: &PlayablePolicy,
    text: &[u8],
) -> Result<SimulationAnswer, SimulationMemory>
    requires { length text.now < u32.MAX }
    ensures simulation { IfOk result (IsSimulationOf (meaning_of policy.now) text.now) }
    ensures shown { IfOk result IsShown }
{
    match play_under(alloc, policy.policy(), text)? {
        PlayAnswer::Broken(told) => Ok(SimulationAnswer::Broken(told)),
        PlayAnswer::Played(told) => Ok(SimulationAnswer::Played(told)),
    }
}

/// What the serial history of that trace wasted, under a policy that can be played.
pub fn waste_text(
    alloc: Global,
    policy: &PlayablePolicy,
    text: &[u8],
) -> Result<SimulationAnswer, SimulationMemory>
    requires { length text.now < u32.MAX }
    ensures waste { IfOk result (IsWasteOf (meaning_of policy.now) text.now) }
    ensures shown { IfOk result IsShown }
{
    match plan_text(alloc, policy.policy(), text) {
        Ok(plan) => Ok(SimulationAnswer::Wasted(waste_of(alloc, policy.policy(), &plan)?)),
        Err(PlanStop::Broken(fault)) => Ok(SimulationAnswer::Broken(fault)),
        Err(PlanStop::Memory) => Err(SimulationMemory::Memory),
    }
}

/// What the serial history of the plan wastes.
fn waste_of(alloc: Global, policy: &Policy, plan: &Plan) -> Result<PlayedWaste, SimulationMemory>
    requires handlers { MeetsHandlerObligations (meaning_of policy.now) }
    requires fits { Fits (meaning_of policy.now) plan.now }
    requires limits { IsWithinLimits plan.now }
    ensures { IfOk result (WastesPlan (meaning_of policy.now) plan.now) }
{
    match play_plan(alloc, policy, plan)? {
        Played::Whole(history) => Ok(PlayedWaste::Whole(waste(alloc, policy, plan, &history)?)),
        Played::Full(history) => Ok(PlayedWaste::Full(waste(alloc, policy, plan, &history)?)),
    }
}
