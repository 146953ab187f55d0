//! A worked plan as a value, and what may come first under it.

ghost use Rattle.std.specs.Prelude.{◌≡◌, ◌<◌, ◌^◌, [], IfOk, IsTrue, ◌↔◌, vec_len};
ghost use Rattle.policy_tree.specs.Meaning.{meaning_of};
ghost use Rattle.round_model.specs.Legal.{LegalNext};
ghost use Rattle.round_judge.specs.Past.{IsPastOf, StandsFor};
ghost use Rattle.model_tests.specs.Plans.{endless as endless_thread, plan_of, two_cores as two_cores_plan};
ghost use Rattle.model_tests.specs.Plans.{weighing as weighing_thread};
ghost use Rattle.model_tests.specs.Policies.{basic};

use policy_tree::Policy;
use round_judge::{Past, step_ok};
use round_model::{
    Burst, BurstList, ConstList, Ending, Entry, ModelMemory, OrderList, Plan, Planned, PlannedList,
};
use sched_base::{MAX_ATTRIBUTES, ThreadId};
use std::alloc::{AllocError, Global};

/// Two cores and two threads without end.
pub fn two_cores(alloc: Global) -> Result<Plan, AllocError>
    ensures { IfOk result (λ plan. plan ≡ two_cores_plan) }
{
    let mut threads = Vec::new(alloc);
    threads.push(endless(alloc, 1)?)?;
    threads.push(endless(alloc, 2)?)?;
    on_two_cores(alloc, threads)
}

/// Two cores and one round with these threads.
pub(crate) fn on_two_cores(alloc: Global, threads: Vec<Planned>) -> Result<Plan, AllocError>
    requires { vec_len threads < 2 ^ 32 }
    ensures { IfOk result (λ plan. plan ≡ plan_of 2 1 threads.items []) }
{
    let consts = Vec::from_elem(alloc, [0; MAX_ATTRIBUTES], 2)?;
    Ok(Plan {
        cores: 2,
        rounds: 1,
        limit: 8192,
        consts: ConstList::from_vec(consts),
        threads: PlannedList::from_vec(threads),
        orders: OrderList::from_vec(Vec::new(alloc)),
    })
}

/// A thread of weight 1 without end, which core 0 lets in in round 1.
pub(crate) fn endless(alloc: Global, id: ThreadId) -> Result<Planned, AllocError>
    ensures { IfOk result (λ thread. thread ≡ endless_thread id) }
{
    weighing(alloc, id, 1)
}

/// A thread of that weight without end, which core 0 lets in in round 1.
pub(crate) fn weighing(alloc: Global, id: ThreadId, weight: u32) -> Result<Planned, AllocError>
    ensures { IfOk result (λ thread. thread ≡ weighing_thread id weight) }
{
    let mut bursts = Vec::new(alloc);
    bursts.push(Burst {
        units: 1,
        ending: Ending::Forever,
    })?;
    Ok(Planned {
        id,
        core: 0,
        round: 1,
        weight,
        bursts: BurstList::from_vec(bursts),
    })
}

/// The past of no entry, for two cores and two threads without end.
pub fn no_past(alloc: Global, plan: &Plan) -> Result<Past, ModelMemory>
    requires { plan.now ≡ two_cores_plan }
    ensures stands { IfOk result (λ past. StandsFor basic two_cores_plan past []) }
    ensures belongs { IfOk result (λ past. IsPastOf basic two_cores_plan past) }
{
    let past = Past::new(alloc, plan)?;
    Ok(past)
}

/// Whether the entry may come first under the basic policy, with two cores and two threads without end.
pub fn may_come_first(policy: &Policy, plan: &Plan, past: &Past, entry: &Entry) -> bool
    requires policy { meaning_of policy.now ≡ basic }
    requires plan { plan.now ≡ two_cores_plan }
    requires stands { StandsFor basic two_cores_plan past.now [] }
    requires belongs { IsPastOf basic two_cores_plan past.now }
    ensures { IsTrue result ↔ LegalNext basic two_cores_plan [] entry.now }
{
    step_ok(policy, plan, past, entry)
}
