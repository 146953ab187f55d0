//! Two cores, step by step, as a person worked them out from the model's text.

ghost use Rattle.std.specs.Prelude.{◌≡◌, ◌<◌, ◌≤◌, ◌++◌, [], ◌∷◌, ℕ, IfOk, vec_len};
ghost use Rattle.policy_eval.specs.Sights.{no_attributes};
ghost use Rattle.policy_tree.specs.Meaning.{meaning_of};
ghost use Rattle.core_state.specs.Views.{HasRoom};
ghost use Rattle.model_tests.specs.Plans.{thread as planned_thread};
ghost use Rattle.model_tests.specs.Policies.{basic};
ghost use Rattle.runtime_tests.specs.Stages.{IsReady, IsSmall, after_unit, at_burst, one_blocks};
ghost use Rattle.runtime_tests.specs.Stages.{both_queued, empty, one_blocked, one_woke, two_came, two_left, two_runs};

use crate::finding::{Finding, all_hold};
use core_state::{CoreState, StateMemory};
use model_tests::builders::basic_policy;
use policy_tree::Policy;
use round_model::{
    Burst, BurstList, ConstList, Did, Ending, OrderList, Plan, Planned, PlannedList,
};
use sched_base::{CoreId, MAX_ATTRIBUTES, Place, Task, ThreadId};
use std::alloc::{AllocError, Global};

/// Thread 1 blocks for a round after its first unit and ends with its second, thread 2 has no end.
pub(crate) fn plan_of_two(alloc: Global) -> Result<Plan, AllocError>
    ensures { IfOk result (λ plan. plan ≡ one_blocks) }
{
    let blocks = [burst(Ending::Block(1)), burst(Ending::End)];
    let mut threads = Vec::new(alloc);
    threads.push(planned(1, Vec::from_slice(alloc, &blocks)?))?;
    threads.push(planned(2, Vec::from_slice(alloc, &[burst(Ending::Forever)])?))?;
    let consts = Vec::from_elem(alloc, [0; MAX_ATTRIBUTES], 2)?;
    Ok(Plan {
        cores: 2,
        rounds: 2,
        limit: 8192,
        consts: ConstList::from_vec(consts),
        threads: PlannedList::from_vec(threads),
        orders: OrderList::from_vec(Vec::new(alloc)),
    })
}

/// One unit, and what follows it.
fn burst(ending: Ending) -> Burst
    ensures { result ≡ record { units = 1; ending = ending } }
{
    Burst { units: 1, ending }
}

/// A thread of weight 1, which core 0 lets in in round 1.
fn planned(id: ThreadId, bursts: Vec<Burst>) -> Planned
    requires { vec_len bursts < 16 }
    ensures { result ≡ planned_thread id 1 bursts.items }
{
    Planned {
        id,
        core: 0,
        round: 1,
        weight: 1,
        bursts: BurstList::from_vec(bursts),
    }
}

/// A core before the first entry.
pub(crate) fn opened(
    alloc: Global,
    policy: &Policy,
    plan: &Plan,
    core: CoreId,
) -> Result<CoreState, StateMemory>
    requires policy { meaning_of policy.now ≡ basic }
    requires plan { plan.now ≡ one_blocks }
    requires core { core < 2 }
    ensures { IfOk result (λ state. state ≡ empty) }
{
    let state = CoreState::open(alloc, policy, plan, core)?;
    Ok(state)
}

/// The thread comes to the core.
fn come(state: &mut CoreState, policy: &Policy, task: Task, fresh: bool)
    requires policy { meaning_of policy.now ≡ basic }
    requires task { (id : ℕ) × (burst : ℕ) × (task ≡ at_burst id burst) }
    requires consts { state.old.core.consts ≡ no_attributes }
    requires room { HasRoom state.old }
    ensures { state.new ≡ record state.old {
      core = record (state.old.core) { queue = state.old.core.queue ++ task ∷ [] };
    } }
{
    state.admit(policy, task, fresh);
}

/// A thread of weight 1 that is to run its first burst.
fn entering(id: ThreadId) -> Task
    ensures { result ≡ at_burst id 0 }
{
    Task {
        id,
        weight: 1,
        attrs: [0; MAX_ATTRIBUTES],
        place: Place { burst: 0, done: 0 },
    }
}

/// Both threads enter.
fn both_enter(state: &mut CoreState, policy: &Policy)
    requires policy { meaning_of policy.now ≡ basic }
    requires state { state.old ≡ empty }
    ensures { state.new ≡ both_queued }
{
    come(state, policy, entering(1), true);
    come(state, policy, entering(2), true);
}

/// One unit of the core in that round.
fn unit(state: &mut CoreState, policy: &Policy, plan: &Plan, round: u32) -> Did
    requires policy { meaning_of policy.now ≡ basic }
    requires plan { plan.now ≡ one_blocks }
    requires state { IsReady state.old }
    requires round { round ≤ 2 }
    ensures { state.new ≡ after_unit round state.old }
{
    state.work(policy, plan, round)
}

/// The core's unit in round 1, with both threads queued.
fn first_unit(state: &mut CoreState, policy: &Policy, plan: &Plan) -> Did
    requires policy { meaning_of policy.now ≡ basic }
    requires plan { plan.now ≡ one_blocks }
    requires state { state.old ≡ both_queued }
    ensures { state.new ≡ one_blocked }
{
    unit(state, policy, plan, 1)
}

/// Thread 2 goes from the one core to the other.
fn two_moves(from: &mut CoreState, to: &mut CoreState)
    requires from { from.old ≡ one_blocked }
    requires to { to.old ≡ empty }
    ensures from { from.new ≡ two_left }
    ensures to { to.new ≡ two_came }
{
    let stolen = from.hand_over(2);
    to.receive(stolen);
}

/// The other core's unit in round 1.
fn unit_of_two(state: &mut CoreState, policy: &Policy, plan: &Plan) -> Did
    requires policy { meaning_of policy.now ≡ basic }
    requires plan { plan.now ≡ one_blocks }
    requires state { state.old ≡ two_came }
    ensures { state.new ≡ two_runs }
{
    unit(state, policy, plan, 1)
}

/// Thread 1 wakes.
fn one_wakes(state: &mut CoreState, policy: &Policy)
    requires policy { meaning_of policy.now ≡ basic }
    requires state { state.old ≡ two_left }
    ensures { state.new ≡ one_woke }
{
    let woken = state.release_blocked(1);
    come(state, policy, woken, false);
}

/// The core's unit in round 2.
fn last_unit(state: &mut CoreState, policy: &Policy, plan: &Plan) -> Did
    requires policy { meaning_of policy.now ≡ basic }
    requires plan { plan.now ≡ one_blocks }
    requires state { state.old ≡ one_woke }
    ensures { state.new ≡ empty }
{
    unit(state, policy, plan, 2)
}

/// Thread count and load of the core.
fn seen(state: &CoreState) -> (u32, u64)
    requires { IsSmall state.now }
{
    (state.nr(), state.load())
}

/// Round 1: what was seen of the core with both threads, and when one was blocked; then of the other core, which took
/// the second. And what became of the threads that ran.
fn first_round(
    first: &mut CoreState,
    second: &mut CoreState,
    policy: &Policy,
    plan: &Plan,
) -> ([(u32, u64); 3], [Did; 2])
    requires policy { meaning_of policy.now ≡ basic }
    requires plan { plan.now ≡ one_blocks }
    requires first { first.old ≡ empty }
    requires second { second.old ≡ empty }
    ensures { first.new ≡ two_left }
{
    both_enter(first, policy);
    let entered = seen(first);
    let ran = first_unit(first, policy, plan);
    let blocked = seen(first);
    two_moves(first, second);
    let came = seen(second);
    let kept = unit_of_two(second, policy, plan);
    ([entered, blocked, came], [ran, kept])
}

/// Round 2: who may wake in round 1, in round 2, and once that thread woke. And what became of it.
fn second_round(
    first: &mut CoreState,
    policy: &Policy,
    plan: &Plan,
) -> ([Option<ThreadId>; 3], Did, (u32, u64))
    requires policy { meaning_of policy.now ≡ basic }
    requires plan { plan.now ≡ one_blocks }
    requires first { first.old ≡ two_left }
{
    let early = first.due(1);
    let due = first.due(2);
    one_wakes(first, policy);
    let woken = first.due(2);
    let ran = last_unit(first, policy, plan);
    ([early, due, woken], ran, seen(first))
}

/// A thread blocks and wakes, and another one is stolen.
pub(crate) fn one_blocks_and_one_is_stolen(alloc: Global) -> Option<Finding> {
    let Ok(policy) = basic_policy(alloc) else {
        return None;
    };
    let Ok(plan) = plan_of_two(alloc) else {
        return None;
    };
    of_two_cores(alloc, &policy, &plan)
}

/// The same of two cores before the first entry.
fn of_two_cores(alloc: Global, policy: &Policy, plan: &Plan) -> Option<Finding>
    requires policy { meaning_of policy.now ≡ basic }
    requires plan { plan.now ≡ one_blocks }
{
    let Ok(mut first) = opened(alloc, policy, plan, 0) else {
        return None;
    };
    beside_another(alloc, &mut first, policy, plan)
}

/// The same of the first core, and another one.
fn beside_another(
    alloc: Global,
    first: &mut CoreState,
    policy: &Policy,
    plan: &Plan,
) -> Option<Finding>
    requires policy { meaning_of policy.now ≡ basic }
    requires plan { plan.now ≡ one_blocks }
    requires first { first.old ≡ empty }
{
    let Ok(mut second) = opened(alloc, policy, plan, 1) else {
        return None;
    };
    Some(both_rounds(first, &mut second, policy, plan))
}

/// Both rounds.
fn both_rounds(
    first: &mut CoreState,
    second: &mut CoreState,
    policy: &Policy,
    plan: &Plan,
) -> Finding
    requires policy { meaning_of policy.now ≡ basic }
    requires plan { plan.now ≡ one_blocks }
    requires first { first.old ≡ empty }
    requires second { second.old ≡ empty }
{
    let (counts, dids) = first_round(first, second, policy, plan);
    let (dues, did, count) = second_round(first, policy, plan);
    all_hold(&[
        (
            "the threads are counted",
            counts == [(2, 2), (1, 1), (1, 1)],
        ),
        (
            "of equals the earliest runs",
            dids == [Did::Blocked(1), Did::Kept(2)],
        ),
        (
            "thread 2 is its core's current one",
            second.queue().is_empty(),
        ),
        ("thread 1 blocks for a round", dues == [None, Some(1), None]),
        ("thread 1 ends", did == Did::Ended(1)),
        ("none is left", count == (0, 0)),
    ])
}
