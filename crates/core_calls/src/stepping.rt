//! One step of a core's turn.

ghost use Rattle.std.specs.Prelude.{◌≡◌, ◌↔◌, false, IsTrue};
ghost use Rattle.turn_steps.specs.Reaches.{IsOver};
ghost use Rattle.turn_steps.specs.States.{state_of};
ghost use Rattle.core_calls.specs.Stepping.{HasLooked, IsPlaying, IsSameTurn, IsToldMore, Steps};

use crate::calls::CoreCalls;
use crate::steps::{enter, look_behind_gate, try_by, wake_or_work, work};
use round_model::Plan;
use sched_io::Gate;
use std::sync::Wait;
use turn_steps::{Ask, Turning};

/// Carries out what the turn asks next, and tells it what came of that. Where no thread is due it goes on to the unit,
/// and it passes the gate before it looks. False where the turn is over.
///
/// Before the core looks, the gate is passed: the call of a look asks for that. That it is passed behind the unit, and
/// once, is no clause.
pub fn crew_step<R: Wait, C: CoreCalls, G: Gate>(
    rt: &R,
    calls: &mut C,
    turning: &mut Turning,
    plan: &Plan,
    gate: &G,
) -> bool
    requires ready { C.ready calls.old × (plan.now ≡ (C.view calls.old).plan) }
    requires playing { IsPlaying (state_of turning.old) (C.view calls.old) }
    requires gate { IsTrue (G.admits gate.now (state_of turning.old).core (state_of turning.old).round) }
    requires passed { HasLooked (state_of turning.old).reached →
        G.passed gate.now (state_of turning.old).core (state_of turning.old).round }
    ensures ready { C.ready calls.new × C.follows calls.old calls.new }
    ensures playing { IsPlaying (state_of turning.new) (C.view calls.new)
        × IsSameTurn (state_of turning.old) (state_of turning.new) }
    ensures steps { Steps result (state_of turning.old) (state_of turning.new)
        (C.view calls.old) (C.view calls.new) }
    ensures over { (result ≡ false) ↔ IsOver (state_of turning.old).reached }
    ensures more { IsTrue result → IsToldMore (state_of turning.old) (state_of turning.new) }
    ensures passed { HasLooked (state_of turning.new).reached →
        G.passed gate.now (state_of turning.old).core (state_of turning.old).round }
{
    match turning.asks(plan) {
        Ask::Arrive(thread) => enter(rt, calls, turning, thread),
        Ask::Wake => wake_or_work(rt, calls, turning),
        Ask::Work => work(rt, calls, turning),
        Ask::Look => look_behind_gate(rt, calls, turning, gate),
        Ask::Act(look) => try_by(rt, calls, turning, look),
        Ask::Over => return false,
    }
    true
}
