//! What a core may do in its turn.

ghost use Rattle.std.specs.Prelude.{◌≡◌, MatchOption};
ghost use Rattle.core_table.specs.declared.views.View.{View};
ghost use Rattle.core_table.specs.Told.{IsKnown};
ghost use Rattle.steal_phase.specs.Attempts.{MayLook};
ghost use Rattle.core_calls.specs.Calls.{LooksAt, MayTry, Tries, core_in};
ghost use Rattle.core_calls.specs.Steps.{Entered, HasNoneDue, MayEnter, MayWake, MayWork, Woken, Worked};

use round_model::Did;
use sched_base::{Pos, ThreadId};
use sched_io::Gate;
use select_phase::Look;
use std::sync::Wait;
use steal_phase::Outcome;

/// The calls of one core in its turn of the open round. A turn is played through them alone, whatever is behind them: a
/// table that other threads share, or a history in memory.
pub trait CoreCalls {
    /// What the core knows: the policy and the plan, its number, the open round, its own entries of that round at their
    /// positions, what it has read, and whether none of its threads is due.
    ghost view: { Self → View };

    /// What the calls rest on besides. They leave it so.
    ghost ready: { Self → Type 0 };

    /// What no call changes is the same: the second is what calls made of the first.
    ghost follows: { Self → Self → Type 0 };

    /// Lets the thread in, which is the next to enter by this core, and says at which position.
    fn enter<R: Wait>(&mut self, rt: &R, thread: ThreadId) -> Pos
        requires ready { ready self.old }
        requires may { MayEnter (view self.old) (core_in (view self.old)) thread }
        ensures ready { ready self.new × follows self.old self.new }
        ensures entered { Entered (core_in (view self.old)) thread result (view self.old) (view self.new) };

    /// Wakes the next thread that is due in the open round, which has that number, and says at which position. Where
    /// none is due, the core knows it from now on.
    fn wake_next<R: Wait>(&mut self, rt: &R, round: u32) -> Option<Pos>
        requires ready { ready self.old }
        requires may { MayWake (view self.old) (core_in (view self.old)) }
        requires round { round ≡ (view self.old).round }
        ensures ready { ready self.new × follows self.old self.new }
        ensures woken { MatchOption result (HasNoneDue (core_in (view self.old)) (view self.old) (view self.new))
            (λ at. Woken (core_in (view self.old)) at (view self.old) (view self.new)) };

    /// Runs the unit of the open round, which has that number, and says what became of the thread that ran.
    fn work<R: Wait>(&mut self, rt: &R, round: u32) -> Did
        requires ready { ready self.old }
        requires may { MayWork (view self.old) (core_in (view self.old)) }
        requires round { round ≡ (view self.old).round }
        ensures ready { ready self.new × follows self.old self.new }
        ensures worked { Worked (core_in (view self.old)) result (view self.old) (view self.new) };

    /// Looks at all cores, its own too, once its unit is run and the gate is passed. It waits for none of them, and asks
    /// nothing of the gate.
    fn look<G: Gate>(&mut self, gate: &G) -> Look
        requires ready { ready self.old }
        requires may { MayLook (view self.old) (core_in (view self.old)) }
        requires passed { G.passed gate.now (core_in (view self.old)) (view self.old).round }
        ensures ready { ready self.new × follows self.old self.new }
        ensures looked { LooksAt result (view self.old) (view self.new) };

    /// Makes the attempt by that look, which is the last thing that the core read.
    fn attempt<R: Wait>(&mut self, rt: &R, look: Look) -> Outcome
        requires ready { ready self.old }
        requires may { MayTry (view self.old) look }
        ensures ready { ready self.new × follows self.old self.new }
        ensures tried { Tries look result (view self.old) (view self.new) };

    /// There is a history with which all that the core knows agrees.
    ghost known: { (it : Self) → ready it → ∥ IsKnown (view it) ∥₁ };

    /// What no call has touched is as it was.
    ghost at_first: { (it : Self) → follows it it };

    /// What is the same behind one row of calls, and behind a next one, is so behind both.
    ghost in_a_row: { (first next last : Self) → follows first next → follows next last → follows first last };
}
