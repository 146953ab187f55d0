//! A core's turn of a round.

ghost use Rattle.std.specs.Prelude.{◌≡◌, IsTrue};
ghost use Rattle.core_calls.specs.Turns.{HasTurned, IsFresh};

use crate::calls::CoreCalls;
use crate::stepping::crew_step;
use crate::turned::Turned;
use round_model::Plan;
use sched_base::CoreId;
use sched_io::Gate;
use std::sync::Wait;
use turn_steps::Turning;

/// The core's turn of the open round, which has that number: it lets threads in, wakes those that are due, runs its
/// unit, passes the gate, looks at all cores, and makes its attempt. At the gate it holds nothing.
pub fn turn<R: Wait, C: CoreCalls, G: Gate>(
    rt: &R,
    calls: &mut C,
    plan: &Plan,
    core: CoreId,
    round: u32,
    gate: &G,
) -> Turned
    requires ready { C.ready calls.old }
    requires fresh { IsFresh (C.view calls.old) core }
    requires plan { plan.now ≡ (C.view calls.old).plan }
    requires round { round ≡ (C.view calls.old).round }
    requires gate { IsTrue (G.admits gate.now core round) }
    ensures ready { C.ready calls.new × C.follows calls.old calls.new }
    ensures turned { HasTurned core result (C.view calls.old) (C.view calls.new) }
    ensures passed { G.passed gate.now core round }
{
    let mut turning = Turning::new(plan, core, round);
    while crew_step(rt, calls, &mut turning, plan, gate) {}
    let (entries, ended) = turning.turned();
    Turned { entries, ended }
}
