//! Plans of one round, in which threads without end enter by several cores, and the policies under which they are
//! played.

ghost use Rattle.std.specs.Prelude.{◌≡◌, ℕ, ◌<◌, ◌≤◌, IfOk, length};
ghost use Rattle.policy_tree.specs.Meaning.{meaning_of};
ghost use Rattle.table_players.specs.Crowds.{AreMembers, IsCrowd, IsMember, IsTried};

use fair_policy::fair_policy;
use model_tests::builders::{basic_policy, batched_policy};
use policy_tree::Policy;
use round_model::{Burst, BurstList, ConstList, Ending, OrderList, Plan, Planned, PlannedList};
use sched_base::{CoreId, MAX_ATTRIBUTES, ThreadId};
use std::alloc::{AllocError, Global};

/// The basic policy, which places a thread on the core that lets it in.
pub fn placed_here(alloc: Global) -> Result<Policy, AllocError>
    ensures { IfOk result (λ policy. IsTried (meaning_of policy)) }
{
    let policy = basic_policy(alloc)?;
    Ok(policy)
}

/// The fair policy, which places a thread on the core with the least load.
pub fn placed_by_load(alloc: Global) -> Result<Policy, AllocError>
    ensures { IfOk result (λ policy. IsTried (meaning_of policy)) }
{
    let policy = fair_policy(alloc)?;
    Ok(policy)
}

/// The basic policy with a batch: a steal moves up to eight threads.
pub fn stolen_in_batches(alloc: Global) -> Result<Policy, AllocError>
    ensures { IfOk result (λ policy. IsTried (meaning_of policy)) }
{
    let policy = batched_policy(alloc, 8)?;
    Ok(policy)
}

/// So many cores and so many threads. The dice say which core lets which thread in; where they are 0, core 0 lets all
/// in.
pub fn crowd(alloc: Global, cores: u32, count: u32, dice: u64) -> Result<Plan, AllocError>
    requires cores { (1 ≤ cores) × (cores ≤ 4) }
    requires count { (1 ≤ count) × (count ≤ 8) }
    ensures crowd { IfOk result IsCrowd }
    ensures cores { IfOk result (λ plan. plan.cores ≡ cores) }
{
    let threads = members(alloc, cores, count, dice)?;
    let consts = Vec::from_elem(alloc, [0; MAX_ATTRIBUTES], cores as usize)?;
    Ok(Plan {
        cores,
        rounds: 1,
        limit: 64,
        consts: ConstList::from_vec(consts),
        threads,
        orders: OrderList::from_vec(Vec::new(alloc)),
    })
}

/// The threads of such a plan.
fn members(alloc: Global, cores: u32, count: u32, dice: u64) -> Result<PlannedList, AllocError>
    requires cores { 1 ≤ cores }
    requires count { count ≤ 8 }
    ensures count { IfOk result (λ threads. length threads ≡ count) }
    ensures each { IfOk result (AreMembers cores) }
{
    let mut rest = dice;
    let mut threads = Vec::with_capacity(alloc, count as usize)?;
    for at in 0..count {
        let core = (rest % u64::from(cores)) as CoreId;
        threads.push(member(alloc, at + 1, core)?)?;
        rest /= 16;
    }
    Ok(PlannedList::from_vec(threads))
}

/// A thread of weight 1 without end, which that core lets in in round 1.
fn member(alloc: Global, id: ThreadId, core: CoreId) -> Result<Planned, AllocError>
    ensures { IfOk result (λ thread. (cores : ℕ) → core < cores → IsMember cores id thread) }
{
    let mut bursts = Vec::new(alloc);
    bursts.push(Burst {
        units: 1,
        ending: Ending::Forever,
    })?;
    Ok(Planned {
        id,
        core,
        round: 1,
        weight: 1,
        bursts: BurstList::from_vec(bursts),
    })
}
