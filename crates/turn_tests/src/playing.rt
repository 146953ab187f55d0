//! Rounds of a history in memory, in which each core takes its turn.

ghost use Rattle.std.specs.Prelude.{◌≡◌, ◌<◌, ℕ, [], IsTrue};
ghost use Rattle.core_table.specs.Logs.{own_log};
ghost use Rattle.turn_tests.specs.Follows.{IsSame, OthersStay};
ghost use Rattle.turn_tests.specs.Memory.{IsKept, IsReady, IsSameMemory, core_of, history_of, plan_of};

use crate::memory_calls::MemoryCalls;
use crate::single_steps::take_steps;
use core_calls::{Turned, turn};
use sched_base::CoreId;
use sched_io::Gate;
use std::alloc::{AllocError, Global};
use std::sync::Wait;

/// How a turn is taken.
#[derive(Clone, Copy)]
pub(crate) enum Way {
    /// Whole.
    Whole,
    /// One step after the other, each beside the one that serial play takes.
    ByStep,
}

/// All cores take their turns in the order of their numbers, round by round, until no round begins. It says what each
/// turn came to, and nothing of one whose steps aren't those of serial play.
pub(crate) fn play_all<R: Wait, G: Gate>(
    rt: &R,
    alloc: Global,
    calls: &mut MemoryCalls<'_>,
    gate: &G,
    way: Way,
) -> Result<Vec<Option<Turned>>, AllocError>
    requires kept { IsKept calls.old }
    requires gate { (core round : ℕ) → IsTrue (G.admits gate.now core round) }
    ensures kept { IsKept calls.new }
    ensures same { IsSameMemory calls.old calls.new }
{
    let mut turned = Vec::new(alloc);
    for _round in 0..calls.plan.rounds {
        if !calls.begin_round(rt) {
            return Ok(turned);
        }
        play_round(rt, calls, gate, way, &mut turned)?;
    }
    Ok(turned)
}

/// The turns of a round in which nobody has done anything.
fn play_round<R: Wait, G: Gate>(
    rt: &R,
    calls: &mut MemoryCalls<'_>,
    gate: &G,
    way: Way,
    turned: &mut Vec<Option<Turned>>,
) -> Result<(), AllocError>
    requires ready { IsReady calls.old }
    requires fresh { (c : ℕ) → own_log c (history_of calls.old) ≡ [] }
    requires gate { (core round : ℕ) → IsTrue (G.admits gate.now core round) }
    ensures kept { IsKept calls.new }
    ensures same { IsSameMemory calls.old calls.new }
{
    for core in 0..calls.plan.cores {
        turned.push(play_turn(rt, calls, core, gate, way))?;
    }
    Ok(())
}

/// The turn of the core, which has done nothing in the open round.
fn play_turn<R: Wait, G: Gate>(
    rt: &R,
    calls: &mut MemoryCalls<'_>,
    core: CoreId,
    gate: &G,
    way: Way,
) -> Option<Turned>
    requires ready { IsReady calls.old }
    requires core { core < (plan_of calls.old).cores }
    requires fresh { own_log core (history_of calls.old) ≡ [] }
    requires gate { (core round : ℕ) → IsTrue (G.admits gate.now core round) }
    ensures ready { IsReady calls.new }
    ensures same { IsSameMemory calls.old calls.new }
    ensures others { OthersStay core calls.old calls.new }
{
    calls.pass_to(core);
    take(rt, calls, gate, way)
}

/// The turn of the core whose turn it is, which has done nothing in the open round.
fn take<R: Wait, G: Gate>(rt: &R, calls: &mut MemoryCalls<'_>, gate: &G, way: Way) -> Option<Turned>
    requires ready { IsReady calls.old }
    requires fresh { own_log (core_of calls.old) (history_of calls.old) ≡ [] }
    requires gate { (core round : ℕ) → IsTrue (G.admits gate.now core round) }
    ensures ready { IsReady calls.new }
    ensures same { IsSame calls.old calls.new }
{
    match way {
        Way::Whole => Some(take_whole(rt, calls, gate)),
        Way::ByStep => take_steps(rt, calls, gate),
    }
}

/// The same at once.
fn take_whole<R: Wait, G: Gate>(rt: &R, calls: &mut MemoryCalls<'_>, gate: &G) -> Turned
    requires ready { IsReady calls.old }
    requires fresh { own_log (core_of calls.old) (history_of calls.old) ≡ [] }
    requires gate { (core round : ℕ) → IsTrue (G.admits gate.now core round) }
    ensures ready { IsReady calls.new }
    ensures same { IsSame calls.old calls.new }
{
    let (plan, core, round) = (calls.plan, calls.core, calls.round());
    turn(rt, calls, plan, core, round, gate)
}
