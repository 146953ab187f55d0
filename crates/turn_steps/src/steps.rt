//! What a turn asks, step by step.

ghost use Rattle.std.specs.Prelude.{◌≡◌, ◌↔◌, ℕ, ◌*◌, ◌<◌, ◌++◌, ◌∷◌, [], length, Some};
ghost use Rattle.sched_base.specs.declared.limits.TheConstants.{MAX_ENTRIES};
ghost use Rattle.round_model.specs.declared.entry.Did.TheVariants as did;
ghost use Rattle.core_table.specs.declared.views.View.{View};
ghost use Rattle.select_phase.specs.declared.looks.Look.{Look as Seen};
ghost use Rattle.turn_steps.specs.declared.asking.Ask.TheVariants as ask;
ghost use Rattle.turn_steps.specs.declared.asking.Told.{Told as Answer};
ghost use Rattle.turn_steps.specs.States.{IsTurnOf, first_state, next_thread, state_of};
ghost use Rattle.turn_steps.specs.Answers.{Answers, Awaits, drawn, told_so_far, with_told};
ghost use Rattle.turn_steps.specs.Views.{Counts, IsAsTold};
ghost use Rattle.turn_steps.specs.Asks.{AsksAsModel};
ghost use Rattle.turn_steps.specs.Code.Asked.{asked_of};
ghost use Rattle.turn_steps.specs.Reaches.{IsOver, did_in, look_in};

use crate::asking::{Ask, Told};
use crate::entering::{count_entering, entering_behind};
use crate::reached::Reached;
use crate::turning::Turning;
use round_model::Plan;
use sched_base::{CoreId, ThreadId};
use serial_steps::{NextInTurn, next_in_turn};

impl Turning {
    /// The turn of that core in that round of the plan, which was told nothing yet.
    pub fn new(plan: &Plan, core: CoreId, round: u32) -> Turning
        ensures { state_of result ≡ first_state plan.now core round }
    {
        Turning {
            core,
            round,
            entering: count_entering(plan, core, round),
            arrived: 0,
            woke: 0,
            reached: Reached::Threads,
        }
    }

    /// The core whose turn it is.
    pub fn core(&self) -> CoreId
        ensures { result ≡ (state_of self.now).core }
    {
        self.core
    }

    /// The number of the round.
    pub fn round(&self) -> u32
        ensures { result ≡ (state_of self.now).round }
    {
        self.round
    }

    /// What the turn asks next, by what it was told. By the plan as many threads enter as by that with
    /// which it began.
    pub fn asks(&self, plan: &Plan) -> Ask
        requires plan { IsTurnOf plan.now (state_of self.now) }
        ensures model { AsksAsModel plan.now (state_of self.now) result }
        ensures awaits { (told : Answer) → Answers result told ↔ Awaits (state_of self.now) told }
        ensures thread { (id : ℕ) → result ≡ ask.Arrive id →
            next_thread plan.now (state_of self.now) ≡ Some id }
        ensures over { (result ≡ ask.Over) ↔ IsOver (state_of self.now).reached }
        ensures look { (look : Seen) → result ≡ ask.Act look →
            look_in (state_of self.now).reached ≡ Some look }
    {
        self.asked(plan)
    }

    /// The same, by the order of a turn.
    fn asked(&self, plan: &Plan) -> Ask
        requires plan { IsTurnOf plan.now (state_of self.now) }
        ensures { result ≡ asked_of plan.now (state_of self.now) }
    {
        let entering = self.next_thread(plan);
        let due = self.reached.may_wake();
        let (worked, acted) = (self.reached.has_worked(), self.reached.has_acted());
        let look = self.reached.look();
        match next_in_turn(entering, due, worked, acted, look) {
            NextInTurn::Enter(thread) => Ask::Arrive(thread),
            NextInTurn::Wake(()) => Ask::Wake,
            NextInTurn::Work => Ask::Work,
            NextInTurn::Look => Ask::Look,
            NextInTurn::Attempt(look) => Ask::Act(look),
            NextInTurn::Over => Ask::Over,
        }
    }

    /// The thread that enters next, if one is left.
    fn next_thread(&self, plan: &Plan) -> Option<ThreadId>
        requires plan { IsTurnOf plan.now (state_of self.now) }
        ensures { result ≡ next_thread plan.now (state_of self.now) }
    {
        if self.arrived == self.entering {
            return None;
        }
        entering_behind(plan, self.core, self.round, self.arrived)
    }

    /// Tells the turn what came of that which it asked.
    pub fn told(&mut self, told: Told)
        requires awaited { Awaits (state_of self.old) told }
        requires few { length (told_so_far (state_of self.old)) < 2 * MAX_ENTRIES }
        ensures told { told_so_far (state_of self.new)
            ≡ told_so_far (state_of self.old) ++ told ∷ [] }
        ensures state { state_of self.new ≡ with_told told (state_of self.old) }
    {
        match told {
            Told::Arrived => self.arrived += 1,
            Told::Woke => self.woke += 1,
            Told::NothingDue => self.reached = Reached::NothingDue,
            Told::Worked(did) => self.reached = Reached::Worked(did),
            Told::Looked(look) => self.reached = self.reached.with_look(look),
            Told::Acted => self.reached = self.reached.with_attempt(),
        }
    }

    /// How many entries the turn was told of, and the thread that ended in its unit, if one did.
    pub fn turned(&self) -> (u32, Option<ThreadId>)
        ensures entries { result.0 ≡ length (drawn (state_of self.now)) }
        ensures ended { (id : ℕ) →
            (result.1 ≡ Some id) ↔ (did_in (state_of self.now).reached ≡ Some (did.Ended id)) }
        ensures view { (v : View) → IsAsTold (state_of self.now) v → Counts result v }
    {
        let behind = self.reached.entries();
        (self.arrived + self.woke + behind, self.reached.ended())
    }
}
