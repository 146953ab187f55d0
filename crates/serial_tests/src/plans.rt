//! Plans that are drawn: a few cores, six rounds, and threads of weight 1 that run on or block once and end.

ghost use Rattle.std.specs.Prelude.{◌≡◌, ◌<◌, ◌≤◌, IfOk, length};
ghost use Rattle.round_model.specs.Fits.{IsProgram};
ghost use Rattle.serial_tests.specs.Drawn.{AreMembers, IsDrawn, IsMember};

use crate::dice::{drawn, rolled};
use round_model::{Burst, BurstList, ConstList, Ending, OrderList, Plan, Planned, PlannedList};
use sched_base::{CoreId, MAX_ATTRIBUTES, ThreadId};
use std::alloc::{AllocError, Global};

/// The plan of these dice: two to four cores, and at most 16 threads.
pub(crate) fn plan(alloc: Global, dice: u64) -> Result<Plan, AllocError>
    ensures { IfOk result IsDrawn }
{
    let cores = drawn(dice >> 33, 3) + 1;
    let threads = members(alloc, cores, drawn(dice >> 43, 16), dice)?;
    let consts = Vec::from_elem(alloc, [0; MAX_ATTRIBUTES], cores as usize)?;
    Ok(Plan {
        cores,
        rounds: 6,
        limit: 1024,
        consts: ConstList::from_vec(consts),
        threads,
        orders: OrderList::from_vec(Vec::new(alloc)),
    })
}

/// So many threads by these dice.
fn members(alloc: Global, cores: u32, count: u32, dice: u64) -> Result<PlannedList, AllocError>
    requires cores { 1 ≤ cores }
    requires count { count ≤ 16 }
    ensures count { IfOk result (λ threads. length threads ≡ count) }
    ensures each { IfOk result (AreMembers cores) }
{
    let mut dice = dice;
    let mut threads = Vec::with_capacity(alloc, count as usize)?;
    for at in 0..count {
        dice = rolled(dice);
        threads.push(member(alloc, at + 1, cores, dice)?)?;
    }
    Ok(PlannedList::from_vec(threads))
}

/// A thread of weight 1, which comes in one of the first three rounds.
fn member(alloc: Global, id: ThreadId, cores: u32, dice: u64) -> Result<Planned, AllocError>
    requires { 1 ≤ cores }
    ensures { IfOk result (IsMember cores id) }
{
    Ok(Planned {
        id,
        core: door(cores, dice >> 33),
        round: drawn(dice >> 43, 3),
        weight: 1,
        bursts: program(alloc, dice >> 53)?,
    })
}

/// The core that lets a thread in: mostly the first.
fn door(cores: u32, dice: u64) -> CoreId
    requires { 1 ≤ cores }
    ensures { result < cores }
{
    if dice % 4 == 0 {
        drawn(dice / 4, cores) - 1
    } else {
        0
    }
}

/// A program without end, or one that blocks once.
fn program(alloc: Global, dice: u64) -> Result<BurstList, AllocError>
    ensures program { IfOk result IsProgram }
    ensures few { IfOk result (λ bursts. length bursts ≤ 2) }
{
    if dice % 2 == 0 {
        endless(alloc)
    } else {
        blocking(alloc, drawn(dice / 2, 3), drawn(dice / 8, 2))
    }
}

/// One unit without end.
fn endless(alloc: Global) -> Result<BurstList, AllocError>
    ensures program { IfOk result IsProgram }
    ensures few { IfOk result (λ bursts. length bursts ≤ 2) }
{
    let bursts = [Burst {
        units: 1,
        ending: Ending::Forever,
    }];
    Ok(BurstList::from_vec(Vec::from_array(alloc, bursts)?))
}

/// So many units, a block for so many rounds, and two units.
fn blocking(alloc: Global, units: u32, rounds: u32) -> Result<BurstList, AllocError>
    requires units { (1 ≤ units) × (units ≤ 3) }
    requires rounds { (1 ≤ rounds) × (rounds ≤ 2) }
    ensures program { IfOk result IsProgram }
    ensures few { IfOk result (λ bursts. length bursts ≤ 2) }
{
    let bursts = [
        Burst {
            units,
            ending: Ending::Block(rounds),
        },
        Burst {
            units: 2,
            ending: Ending::End,
        },
    ];
    Ok(BurstList::from_vec(Vec::from_array(alloc, bursts)?))
}
