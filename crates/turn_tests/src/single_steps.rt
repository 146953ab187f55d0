//! A turn of a core in memory, one step after the other, each beside the one that serial play takes.

ghost use Rattle.std.specs.Prelude.{◌≡◌, ℕ, [], IsTrue};
ghost use Rattle.core_table.specs.Logs.{own_log};
ghost use Rattle.turn_steps.specs.States.{state_of};
ghost use Rattle.turn_tests.specs.Beside.{IsBeside};
ghost use Rattle.turn_tests.specs.Follows.{IsSame};
ghost use Rattle.turn_tests.specs.Memory.{IsReady, core_of, history_of};

use crate::memory_calls::MemoryCalls;
use core_calls::{Turned, crew_step};
use sched_io::Gate;
use std::sync::Wait;
use turn_steps::{Ask, Turning};

/// The turn of the core whose turn it is, which has done nothing in the open round. `None` where it asks for another
/// step than serial play takes, or a step adds more entries than are asked for, or fewer.
pub(crate) fn take_steps<R: Wait, G: Gate>(
    rt: &R,
    calls: &mut MemoryCalls<'_>,
    gate: &G,
) -> Option<Turned>
    requires ready { IsReady calls.old }
    requires fresh { own_log (core_of calls.old) (history_of calls.old) ≡ [] }
    requires gate { (core round : ℕ) → IsTrue (G.admits gate.now core round) }
    ensures ready { IsReady calls.new }
    ensures same { IsSame calls.old calls.new }
{
    let mut turning = Turning::new(calls.plan, calls.core, calls.round());
    for _ in rt.forever() {
        if !step(rt, calls, &mut turning, gate)? {
            return Some(turned_of(&turning));
        }
    }
    unreachable!()
}

/// One step of the turn. It says whether the turn goes on, and nothing where the step isn't that of serial play.
fn step<R: Wait, G: Gate>(
    rt: &R,
    calls: &mut MemoryCalls<'_>,
    turning: &mut Turning,
    gate: &G,
) -> Option<bool>
    requires beside { IsBeside (G.passed gate.now) calls.old (state_of turning.old) }
    requires gate { (core round : ℕ) → IsTrue (G.admits gate.now core round) }
    ensures beside { IsBeside (G.passed gate.now) calls.new (state_of turning.new) }
    ensures same { IsSame calls.old calls.new }
{
    let plan = calls.plan;
    let asked = turning.asks(plan);
    let taken = calls.takes(&asked);
    let before = calls.history.len();
    let goes_on = crew_step(rt, calls, turning, plan, gate);
    let added = calls.history.len().wrapping_sub(before);
    answer_if(taken && added == entries_for(&asked), goes_on)
}

/// The answer, if it counts.
fn answer_if(counts: bool, answer: bool) -> Option<bool> {
    if counts { Some(answer) } else { None }
}

/// How many entries are asked for.
fn entries_for(asked: &Ask) -> u32 {
    match asked {
        Ask::Look | Ask::Over => 0,
        _ => 1,
    }
}

/// What the turn was told, in the words of `turn`.
fn turned_of(turning: &Turning) -> Turned {
    let (entries, ended) = turning.turned();
    Turned { entries, ended }
}
