//! How each step is carried out, and told.

ghost use Rattle.std.specs.Prelude.{◌≡◌, IsTrue};
ghost use Rattle.round_model.specs.declared.entry.Did.{Did as Ran};
ghost use Rattle.turn_steps.specs.declared.asking.Ask.TheVariants as ask;
ghost use Rattle.turn_steps.specs.declared.asking.Told.TheVariants as answer;
ghost use Rattle.turn_steps.specs.declared.reached.Reached.TheVariants as reached;
ghost use Rattle.turn_steps.specs.Answers.{Awaits};
ghost use Rattle.turn_steps.specs.Asks.{AsksAsModel};
ghost use Rattle.turn_steps.specs.States.{state_of};
ghost use Rattle.core_calls.specs.Stepping.{AddsAsked, HasLooked, IsPlaying, IsSameTurn, IsToldMore};
ghost use Rattle.core_calls.specs.Stepping.{LooksAsked};

use crate::calls::CoreCalls;
use sched_base::ThreadId;
use sched_io::Gate;
use select_phase::Look;
use std::sync::Wait;
use turn_steps::{Told, Turning};

/// The thread enters.
pub(crate) fn enter<R: Wait, C: CoreCalls>(
    rt: &R,
    calls: &mut C,
    turning: &mut Turning,
    thread: ThreadId,
)
    requires ready { C.ready calls.old }
    requires playing { IsPlaying (state_of turning.old) (C.view calls.old) }
    requires awaits { Awaits (state_of turning.old) answer.Arrived }
    requires asked { AsksAsModel (C.view calls.old).plan (state_of turning.old) (ask.Arrive thread) }
    ensures ready { C.ready calls.new × C.follows calls.old calls.new }
    ensures playing { IsPlaying (state_of turning.new) (C.view calls.new)
        × IsSameTurn (state_of turning.old) (state_of turning.new) }
    ensures added { AddsAsked (state_of turning.old) (state_of turning.new)
        (C.view calls.old) (C.view calls.new) }
    ensures looked { HasLooked (state_of turning.new).reached → HasLooked (state_of turning.old).reached }
    ensures more { IsToldMore (state_of turning.old) (state_of turning.new) }
{
    calls.enter(rt, thread);
    turning.told(Told::Arrived);
}

/// The next thread that is due wakes. Where none is, the unit is run.
pub(crate) fn wake_or_work<R: Wait, C: CoreCalls>(rt: &R, calls: &mut C, turning: &mut Turning)
    requires ready { C.ready calls.old }
    requires playing { IsPlaying (state_of turning.old) (C.view calls.old) }
    requires awaits { Awaits (state_of turning.old) answer.Woke }
    requires asked { AsksAsModel (C.view calls.old).plan (state_of turning.old) ask.Wake }
    ensures ready { C.ready calls.new × C.follows calls.old calls.new }
    ensures playing { IsPlaying (state_of turning.new) (C.view calls.new)
        × IsSameTurn (state_of turning.old) (state_of turning.new) }
    ensures added { AddsAsked (state_of turning.old) (state_of turning.new)
        (C.view calls.old) (C.view calls.new) }
    ensures looked { HasLooked (state_of turning.new).reached → HasLooked (state_of turning.old).reached }
    ensures more { IsToldMore (state_of turning.old) (state_of turning.new) }
{
    if calls.wake_next(rt, turning.round()).is_some() {
        turning.told(Told::Woke);
    } else {
        turning.told(Told::NothingDue);
        work(rt, calls, turning);
    }
}

/// The unit is run.
pub(crate) fn work<R: Wait, C: CoreCalls>(rt: &R, calls: &mut C, turning: &mut Turning)
    requires ready { C.ready calls.old }
    requires playing { IsPlaying (state_of turning.old) (C.view calls.old) }
    requires awaits { (state_of turning.old).reached ≡ reached.NothingDue }
    requires asked { AsksAsModel (C.view calls.old).plan (state_of turning.old) ask.Work }
    ensures ready { C.ready calls.new × C.follows calls.old calls.new }
    ensures playing { IsPlaying (state_of turning.new) (C.view calls.new)
        × IsSameTurn (state_of turning.old) (state_of turning.new) }
    ensures added { AddsAsked (state_of turning.old) (state_of turning.new)
        (C.view calls.old) (C.view calls.new) }
    ensures looked { HasLooked (state_of turning.new).reached → HasLooked (state_of turning.old).reached }
    ensures more { IsToldMore (state_of turning.old) (state_of turning.new) }
{
    let did = calls.work(rt, turning.round());
    turning.told(Told::Worked(did));
}

/// The core passes the gate, and looks.
pub(crate) fn look_behind_gate<R: Wait, C: CoreCalls, G: Gate>(
    rt: &R,
    calls: &mut C,
    turning: &mut Turning,
    gate: &G,
)
    requires ready { C.ready calls.old }
    requires playing { IsPlaying (state_of turning.old) (C.view calls.old) }
    requires awaits { (did : Ran) × ((state_of turning.old).reached ≡ reached.Worked did) }
    requires asked { AsksAsModel (C.view calls.old).plan (state_of turning.old) ask.Look }
    requires gate { IsTrue (G.admits gate.now (state_of turning.old).core (state_of turning.old).round) }
    ensures ready { C.ready calls.new × C.follows calls.old calls.new }
    ensures playing { IsPlaying (state_of turning.new) (C.view calls.new)
        × IsSameTurn (state_of turning.old) (state_of turning.new) }
    ensures looked { LooksAsked (state_of turning.old) (state_of turning.new)
        (C.view calls.old) (C.view calls.new) }
    ensures passed { G.passed gate.now (state_of turning.old).core (state_of turning.old).round }
    ensures more { IsToldMore (state_of turning.old) (state_of turning.new) }
{
    gate.pass(rt, turning.core(), turning.round());
    let look = calls.look(gate);
    turning.told(Told::Looked(look));
}

/// The core makes its attempt by the look.
pub(crate) fn try_by<R: Wait, C: CoreCalls>(
    rt: &R,
    calls: &mut C,
    turning: &mut Turning,
    look: Look,
)
    requires ready { C.ready calls.old }
    requires playing { IsPlaying (state_of turning.old) (C.view calls.old) }
    requires awaits { (did : Ran) × ((state_of turning.old).reached ≡ reached.Looked did look) }
    requires asked { AsksAsModel (C.view calls.old).plan (state_of turning.old) (ask.Act look) }
    ensures ready { C.ready calls.new × C.follows calls.old calls.new }
    ensures playing { IsPlaying (state_of turning.new) (C.view calls.new)
        × IsSameTurn (state_of turning.old) (state_of turning.new) }
    ensures added { AddsAsked (state_of turning.old) (state_of turning.new)
        (C.view calls.old) (C.view calls.new) }
    ensures looked { HasLooked (state_of turning.new).reached → HasLooked (state_of turning.old).reached }
    ensures more { IsToldMore (state_of turning.old) (state_of turning.new) }
{
    calls.attempt(rt, look);
    turning.told(Told::Acted);
}
