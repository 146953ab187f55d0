//! What a steal makes of the cores.

ghost use Rattle.std.specs.Prelude.{◌≡◌, ◌≢◌, ◌<◌, ◌+◌, ◌^◌, ◌++◌, ℕ, All, IfOk, List, OnErr, OnOk, Some, find, length};
ghost use Rattle.std.specs.Prelude.{option_to_list, slice_get};
ghost use Rattle.policy_tree.specs.Meaning.{Meaning};
ghost use Rattle.policy_eval.specs.Fitting.{IsTask};
ghost use Rattle.round_model.specs.declared.entry.Entry.TheVariants as entry;
ghost use Rattle.round_model.specs.declared.plan.Plan.{Plan};
ghost use Rattle.round_model.specs.declared.state.ModelCore.{ModelCore};
ghost use Rattle.round_model.specs.After.{moved};
ghost use Rattle.round_model.specs.Kept.{Holds, IsKept};
ghost use Rattle.round_model.specs.Updates.{IsFirstPlace, updated};
ghost use Rattle.round_model.specs.Cores.{Cores, listed};
ghost use Rattle.round_model.specs.Moves.{is_task, received_all, taken_from, without_first};
ghost use Rattle.round_judge.specs.Units.{IsSmallCore};

use crate::moves::take_core;
use round_model::{ModelMemory, State, TaskList};
use sched_base::{CoreId, Stolen, ThreadId};
use std::alloc::Global;

/// The queued threads of these numbers leave the core `from` and come to the core `by`, in this order.
pub(crate) fn steal(
    alloc: Global,
    state: &mut State,
    by: CoreId,
    from: CoreId,
    threads: Stolen,
) -> Result<(), ModelMemory>
    requires room { All IsSmallCore state.old }
    requires by { by < length state.old }
    requires from { from < length state.old }
    requires apart { by ≢ from }
    ensures ok { OnOk result ((n : ℕ) (m : Cores) (p : Meaning) (plan : Plan) (round : ℕ) (reads : List ℕ) →
        state.old ≡ listed n m → by < n → from < n →
        state.new ≡ listed n (moved p plan round (entry.Steal by from threads reads) m)) }
    ensures kept { OnOk result ((p : Meaning) → All (Holds p) state.old → IsKept p 0 0 state.old state.new) }
    ensures err { OnErr result (state.new ≡ state.old) }
{
    let (found, left) = taken(alloc, &state.get(from).queue, &threads)?;
    receive_all(alloc, state, by, &found)?;
    leave_queue(alloc, state, from, left);
    Ok(())
}

/// The queued tasks of these numbers, and the queue without them.
fn taken(
    alloc: Global,
    queue: &TaskList,
    threads: &Stolen,
) -> Result<(TaskList, TaskList), ModelMemory>
    ensures found { IfOk result (λ both. both.0 ≡ (taken_from threads.now queue.now).found) }
    ensures left { IfOk result (λ both. both.1 ≡ (taken_from threads.now queue.now).left) }
{
    let mut left = TaskList::from_vec(Vec::from_slice(alloc, queue.as_slice())?);
    let mut found = TaskList::from_vec(Vec::new(alloc));
    for at in 0..threads.len() {
        take_one(&mut left, &mut found, threads.get(at))?;
    }
    Ok((found, left))
}

/// The earliest queued task of that number goes over to those that were found, if there is one.
fn take_one(left: &mut TaskList, found: &mut TaskList, thread: ThreadId) -> Result<(), ModelMemory>
    requires { length found.old + 1 < 2 ^ 32 }
    ensures found { IfOk result (λ _. found.new ≡ found.old ++ option_to_list (find (is_task thread) left.old)) }
    ensures left { IfOk result (λ _. left.new ≡ without_first (is_task thread) left.old) }
{
    let Some(place) = queued_place(left, thread) else {
        return Ok(());
    };
    Ok(found.push(left.remove(place))?)
}

/// The place in the queue of the earliest task of that number.
fn queued_place(queue: &TaskList, thread: ThreadId) -> Option<u32>
    ensures { IsFirstPlace (is_task thread) queue.now result }
{
    for at in 0..queue.len() {
        if queue.get(at).id == thread {
            return Some(at);
        }
    }
    None
}

/// The tasks come to the end of the core's queue. No handler runs.
fn receive_all(
    alloc: Global,
    state: &mut State,
    at: CoreId,
    tasks: &TaskList,
) -> Result<(), ModelMemory>
    requires room { (core : ModelCore) → slice_get state.old at ≡ Some core →
        length core.queue + length tasks.now < 2 ^ 32 }
    requires at { at < length state.old }
    ensures ok { OnOk result ((n : ℕ) (m : Cores) → state.old ≡ listed n m → at < n →
        state.new ≡ listed n (updated m at (received_all tasks.now (m at)))) }
    ensures len { length state.new ≡ length state.old }
    ensures kept { OnOk result ((p : Meaning) → All (IsTask p) tasks.now →
        IsKept p 0 (length tasks.now) state.old state.new) }
    ensures err { OnErr result (state.new ≡ state.old) }
{
    let mut core = take_core(alloc, state, at);
    let done = push_all(&mut core.queue, tasks);
    let _idle = state.replace(at, core);
    done
}

/// The tasks come to the end of the queue. Without memory for all of them it stays as it was.
fn push_all(queue: &mut TaskList, tasks: &TaskList) -> Result<(), ModelMemory>
    requires { length queue.old + length tasks.now < 2 ^ 32 }
    ensures ok { OnOk result (queue.new ≡ queue.old ++ tasks.now) }
    ensures err { OnErr result (queue.new ≡ queue.old) }
{
    let count = queue.len();
    for at in 0..tasks.len() {
        if queue.push(*tasks.get(at)).is_err() {
            queue.truncate(count);
            return Err(ModelMemory::Memory);
        }
    }
    Ok(())
}

/// This is left of the core's queue.
fn leave_queue(alloc: Global, state: &mut State, at: CoreId, left: TaskList)
    requires { at < length state.old }
    ensures state { (n : ℕ) (m : Cores) → state.old ≡ listed n m → at < n →
        state.new ≡ listed n (updated m at (record (m at) { queue = left })) }
    ensures kept { (p : Meaning) (core : ModelCore) (fewer : ℕ) → slice_get state.old at ≡ Some core →
        All (IsTask p) left → length left + fewer ≡ length core.queue → IsKept p fewer 0 state.old state.new }
{
    let mut core = take_core(alloc, state, at);
    core.queue = left;
    let _idle = state.replace(at, core);
}
