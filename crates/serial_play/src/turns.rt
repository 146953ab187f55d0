//! The steps of several cores, one after the other.

ghost use Rattle.std.specs.Prelude.{◌<◌, All, OnOk, replicate};
ghost use Rattle.policy_tree.specs.Meaning.{meaning_of};
ghost use Rattle.policy_eval.specs.Obligations.{MeetsHandlerObligations};
ghost use Rattle.round_model.specs.Fits.{Fits};
ghost use Rattle.serial_steps.specs.SerialRounds.{most_steps as most_steps_of, order_of, remaining_turns};
ghost use Rattle.serial_play.specs.Plays.{HasRoom, IsPlay};
ghost use Rattle.serial_play.specs.Rounds.{Moves};

use crate::play::{Play, advance};
use policy_tree::Policy;
use round_model::{ModelMemory, Plan};
use sched_base::CoreId;
use serial_steps::{most_steps, ordered_cores};
use std::alloc::Global;

/// A step of each of these cores, one after the other.
pub(crate) fn take_steps(
    alloc: Global,
    policy: &Policy,
    plan: &Plan,
    play: &mut Play,
    cores: &[CoreId],
) -> Result<(), ModelMemory>
    requires fits { Fits (meaning_of policy.now) plan.now }
    requires handlers { MeetsHandlerObligations (meaning_of policy.now) }
    requires play { IsPlay (meaning_of policy.now) plan.now play.old }
    requires begun { 0 < play.old.past.rounds }
    requires cores { All (λ c. c < plan.now.cores) cores.now }
    requires room { HasRoom (meaning_of policy.now) plan.now play.old.history }
    ensures { OnOk result (Moves (meaning_of policy.now) plan.now cores.now play.old play.new) }
{
    for core in cores {
        let _more = advance(alloc, policy, plan, play, *core)?;
    }
    Ok(())
}

/// All steps that the core has left in its turn.
pub(crate) fn end_turn(
    alloc: Global,
    policy: &Policy,
    plan: &Plan,
    play: &mut Play,
    core: CoreId,
) -> Result<(), ModelMemory>
    requires fits { Fits (meaning_of policy.now) plan.now }
    requires handlers { MeetsHandlerObligations (meaning_of policy.now) }
    requires play { IsPlay (meaning_of policy.now) plan.now play.old }
    requires begun { 0 < play.old.past.rounds }
    requires core { core < plan.now.cores }
    requires room { HasRoom (meaning_of policy.now) plan.now play.old.history }
    ensures { OnOk result
        (Moves (meaning_of policy.now) plan.now (replicate (most_steps_of plan.now) core) play.old play.new) }
{
    for _step in 0..most_steps(plan) {
        if !advance(alloc, policy, plan, play, core)? {
            return Ok(());
        }
    }
    Ok(())
}

/// A step of each core in the order that the plan has for the round of that number.
pub(crate) fn take_ordered(
    alloc: Global,
    policy: &Policy,
    plan: &Plan,
    play: &mut Play,
    number: u32,
) -> Result<(), ModelMemory>
    requires fits { Fits (meaning_of policy.now) plan.now }
    requires handlers { MeetsHandlerObligations (meaning_of policy.now) }
    requires play { IsPlay (meaning_of policy.now) plan.now play.old }
    requires begun { 0 < play.old.past.rounds }
    requires room { HasRoom (meaning_of policy.now) plan.now play.old.history }
    ensures { OnOk result (Moves (meaning_of policy.now) plan.now (order_of plan.now number) play.old play.new) }
{
    take_steps(alloc, policy, plan, play, ordered_cores(plan, number))
}

/// All steps that the cores have left in their turns, core by core.
pub(crate) fn end_turns(
    alloc: Global,
    policy: &Policy,
    plan: &Plan,
    play: &mut Play,
) -> Result<(), ModelMemory>
    requires fits { Fits (meaning_of policy.now) plan.now }
    requires handlers { MeetsHandlerObligations (meaning_of policy.now) }
    requires play { IsPlay (meaning_of policy.now) plan.now play.old }
    requires begun { 0 < play.old.past.rounds }
    requires room { HasRoom (meaning_of policy.now) plan.now play.old.history }
    ensures { OnOk result (Moves (meaning_of policy.now) plan.now (remaining_turns plan.now) play.old play.new) }
{
    for core in 0..plan.cores {
        end_turn(alloc, policy, plan, play, core)?;
    }
    Ok(())
}
