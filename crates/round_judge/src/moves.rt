//! How threads come to cores and leave them.

ghost use Rattle.std.specs.Prelude.{◌≡◌, ◌<◌, ℕ, All, IsSome, OnErr, OnOk, Some, length, option_map, slice_get};
ghost use Rattle.std.specs.Prelude.{slice_set};
ghost use Rattle.policy_tree.specs.Meaning.{Meaning, meaning_of};
ghost use Rattle.policy_eval.specs.Fitting.{IsTask};
ghost use Rattle.policy_eval.specs.Obligations.{MeetsHandlerObligations};
ghost use Rattle.policy_eval.specs.Resolved.{IsResolved};
ghost use Rattle.round_model.specs.Bounds.{CoreInBounds};
ghost use Rattle.round_model.specs.Cores.{Cores, listed};
ghost use Rattle.round_model.specs.declared.state.ModelCore.{ModelCore};
ghost use Rattle.round_model.specs.Kept.{IsKept};
ghost use Rattle.round_model.specs.Moves.{admitted, blocked_of, is_blocked_task, released, with_task};
ghost use Rattle.round_model.specs.Updates.{IsFirstPlace, updated};
ghost use Rattle.round_judge.specs.Units.{IsSmallCore};

use policy_eval::apply_case;
use policy_tree::{Event, Policy, Put};
use round_model::{Blocked, ModelCore, ModelMemory, State};
use sched_base::{CoreId, MAX_ATTRIBUTES, Task, ThreadId};
use std::alloc::Global;

/// The task comes to the core by its enqueue event; `fresh` where it enters just now.
pub(crate) fn admit(
    alloc: Global,
    policy: &Policy,
    state: &mut State,
    at: CoreId,
    task: Task,
    fresh: bool,
) -> Result<(), ModelMemory>
    requires policy { IsResolved (meaning_of policy.now) }
    requires handlers { MeetsHandlerObligations (meaning_of policy.now) }
    requires bounds { All (CoreInBounds (meaning_of policy.now)) state.old }
    requires room { All IsSmallCore state.old }
    requires task { IsTask (meaning_of policy.now) task }
    requires at { at < length state.old }
    ensures ok { OnOk result ((n : ℕ) (m : Cores) → state.old ≡ listed n m → at < n →
        state.new ≡ listed n (updated m at (admitted (meaning_of policy.now) fresh task (m at)))) }
    ensures len { length state.new ≡ length state.old }
    ensures kept { OnOk result (IsKept (meaning_of policy.now) 0 1 state.old state.new) }
    ensures err { OnErr result (state.new ≡ state.old) }
{
    let consts = state.get(at).consts;
    let (task, place) = apply_case(policy, Event::Enqueue, fresh, task, &consts);
    put(alloc, state, at, task, place)
}

/// The task is put there at the core.
fn put(
    alloc: Global,
    state: &mut State,
    at: CoreId,
    task: Task,
    place: Put,
) -> Result<(), ModelMemory>
    requires room { All IsSmallCore state.old }
    requires at { at < length state.old }
    ensures ok { OnOk result ((n : ℕ) (m : Cores) → state.old ≡ listed n m → at < n →
        state.new ≡ listed n (updated m at (with_task place 0 task (m at)))) }
    ensures len { length state.new ≡ length state.old }
    ensures kept { OnOk result ((p : Meaning) → IsTask p task → IsKept p 0 1 state.old state.new) }
    ensures err { OnErr result (state.new ≡ state.old) }
{
    let mut core = take_core(alloc, state, at);
    let done = take_in(&mut core, task, place);
    let _idle = state.replace(at, core);
    done
}

/// The blocked thread of that number leaves the core's blocked list.
pub(crate) fn release(alloc: Global, state: &mut State, at: CoreId, thread: ThreadId)
    requires { at < length state.old }
    ensures state { (n : ℕ) (m : Cores) → state.old ≡ listed n m → at < n →
        state.new ≡ listed n (updated m at (released thread (m at))) }
    ensures kept { (p : Meaning) (core : ModelCore) → slice_get state.old at ≡ Some core →
        IsSome (blocked_of thread core) → IsKept p 1 0 state.old state.new }
{
    let mut core = take_core(alloc, state, at);
    take_blocked(&mut core, thread);
    let _idle = state.replace(at, core);
}

#[tactic(auto, unfolding(round_model::specs::Moves::released))]
fn take_blocked(core: &mut ModelCore, thread: ThreadId)
    ensures { core.new ≡ released thread core.old }
{
    if let Some(place) = blocked_place(core, thread) {
        let _blocked = core.blocked.remove(place);
    }
}

/// The core out of the state. An empty core stands for it until it is put back.
pub(crate) fn take_core(alloc: Global, state: &mut State, at: CoreId) -> ModelCore
    requires { at < length state.old }
    ensures core { slice_get state.old at ≡ Some result }
    ensures rest { (core : ModelCore) → slice_set state.new at core ≡ slice_set state.old at core }
    ensures len { length state.new ≡ length state.old }
{
    state.replace(at, ModelCore::idle(alloc, [0; MAX_ATTRIBUTES]))
}

/// The task is put there. Without memory for that the core stays as it was.
fn take_in(core: &mut ModelCore, task: Task, place: Put) -> Result<(), ModelMemory>
    requires { IsSmallCore core.old }
    ensures ok { OnOk result (core.new ≡ with_task place 0 task core.old) }
    ensures err { OnErr result (core.new ≡ core.old) }
{
    match place {
        Put::Queue => core.queue.push(task)?,
        Put::Keep => core.current = Some(task),
        Put::Block => core.blocked.push(Blocked { task, wake: 0 })?,
    }
    Ok(())
}

/// The earliest blocked task of that number.
pub(crate) fn blocked_task(core: &ModelCore, thread: ThreadId) -> Option<Task>
    ensures { result ≡ option_map (λ b. b.task) (blocked_of thread core.now) }
{
    let place = blocked_place(core, thread)?;
    Some(core.blocked.get(place).task)
}

/// The place in the blocked list of the earliest task of that number.
fn blocked_place(core: &ModelCore, thread: ThreadId) -> Option<u32>
    ensures { IsFirstPlace (is_blocked_task thread) core.now.blocked result }
{
    for at in 0..core.blocked.len() {
        if core.blocked.get(at).task.id == thread {
            return Some(at);
        }
    }
    None
}
