//! What each kind of entry makes of the cores.

ghost use Rattle.std.specs.Prelude.{◌≡◌, ◌<◌, ◌≤◌, ℕ, All, List, OnErr, OnOk, length};
ghost use Rattle.policy_tree.specs.Meaning.{meaning_of};
ghost use Rattle.policy_eval.specs.Obligations.{MeetsHandlerObligations};
ghost use Rattle.policy_eval.specs.Resolved.{IsResolved};
ghost use Rattle.round_model.specs.declared.entry.Did.{Did};
ghost use Rattle.round_model.specs.declared.entry.Entry.TheVariants as entry;
ghost use Rattle.round_model.specs.declared.plan.Plan.{Plan};
ghost use Rattle.round_model.specs.After.{moved};
ghost use Rattle.round_model.specs.Bounds.{CoreInBounds};
ghost use Rattle.round_model.specs.Cores.{Cores, listed};
ghost use Rattle.round_model.specs.Fits.{Fits};
ghost use Rattle.round_model.specs.Kept.{IsKept};
ghost use Rattle.round_model.specs.Lists.{Lists};
ghost use Rattle.round_model.specs.Work.{IsOutcomeOfWork};
ghost use Rattle.round_judge.specs.Units.{IsSmallCore};

use crate::directory::{Directory, planned};
use crate::moves::{admit, blocked_task, release, take_core};
use crate::unit::unit_of;
use policy_tree::Policy;
use round_model::{ModelMemory, Plan, State, entering_task};
use sched_base::{CoreId, MAX_ROUNDS, ThreadId};
use std::alloc::Global;

/// A thread of the plan comes to the core `at`. What the plan doesn't have comes nowhere.
pub(crate) fn enter(
    alloc: Global,
    policy: &Policy,
    plan: &Plan,
    directory: &Directory,
    state: &mut State,
    thread: ThreadId,
    at: CoreId,
) -> Result<(), ModelMemory>
    requires fits { Fits (meaning_of policy.now) plan.now }
    requires handlers { MeetsHandlerObligations (meaning_of policy.now) }
    requires lists { Lists plan.now directory.now }
    requires bounds { All (CoreInBounds (meaning_of policy.now)) state.old }
    requires room { All IsSmallCore state.old }
    requires at { at < length state.old }
    ensures ok { OnOk result ((n : ℕ) (m : Cores) (round by : ℕ) (reads : List ℕ) → state.old ≡ listed n m → at < n →
        state.new ≡ listed n (moved (meaning_of policy.now) plan.now round (entry.Enter thread by at reads) m)) }
    ensures kept { OnOk result (IsKept (meaning_of policy.now) 0 1 state.old state.new) }
    ensures err { OnErr result (state.new ≡ state.old) }
{
    match planned(directory, plan, thread) {
        None => Ok(()),
        Some(thread) => admit(
            alloc,
            policy,
            state,
            at,
            entering_task(policy, thread),
            true,
        ),
    }
}

/// The blocked thread of that number leaves the core `by` and comes to the core `at`.
pub(crate) fn wake(
    alloc: Global,
    policy: &Policy,
    state: &mut State,
    thread: ThreadId,
    by: CoreId,
    at: CoreId,
) -> Result<(), ModelMemory>
    requires policy { IsResolved (meaning_of policy.now) }
    requires handlers { MeetsHandlerObligations (meaning_of policy.now) }
    requires bounds { All (CoreInBounds (meaning_of policy.now)) state.old }
    requires room { All IsSmallCore state.old }
    requires by { by < length state.old }
    requires at { at < length state.old }
    ensures ok { OnOk result ((n : ℕ) (m : Cores) (plan : Plan) (round : ℕ) (reads : List ℕ) → state.old ≡ listed n m →
        by < n → at < n →
        state.new ≡ listed n (moved (meaning_of policy.now) plan round (entry.Wake thread by at reads) m)) }
    ensures kept { OnOk result (IsKept (meaning_of policy.now) 0 0 state.old state.new) }
    ensures err { OnErr result (state.new ≡ state.old) }
{
    match blocked_task(state.get(by), thread) {
        None => Ok(()),
        Some(task) => {
            admit(alloc, policy, state, at, task, false)?;
            release(alloc, state, by, thread);
            Ok(())
        }
    }
}

/// The core runs a unit of which something may be said.
pub(crate) fn work(
    alloc: Global,
    policy: &Policy,
    plan: &Plan,
    directory: &Directory,
    state: &mut State,
    by: CoreId,
    round: u32,
) -> Result<(), ModelMemory>
    requires fits { Fits (meaning_of policy.now) plan.now }
    requires handlers { MeetsHandlerObligations (meaning_of policy.now) }
    requires lists { Lists plan.now directory.now }
    requires bounds { All (CoreInBounds (meaning_of policy.now)) state.old }
    requires room { All IsSmallCore state.old }
    requires round { round ≤ MAX_ROUNDS }
    requires by { by < length state.old }
    ensures ok { OnOk result ((n : ℕ) (m : Cores) (did : Did) → state.old ≡ listed n m → by < n →
        IsOutcomeOfWork (meaning_of policy.now) plan.now round (m by) did →
        state.new ≡ listed n (moved (meaning_of policy.now) plan.now round (entry.Work by did) m)) }
    ensures kept { OnOk result (IsKept (meaning_of policy.now) 0 0 state.old state.new) }
    ensures err { OnErr result (state.new ≡ state.old) }
{
    let unit = unit_of(policy, plan, directory, state.get(by), round);
    let mut core = take_core(alloc, state, by);
    let done = unit.run(&mut core);
    let _idle = state.replace(by, core);
    done
}
