//! The steps of a turn: a thread enters or wakes, a unit of work, a look, an attempt.

ghost use Rattle.std.specs.Prelude.{◌≡◌, ◌<◌, IsFalse, vec_capacity};
ghost use Rattle.policy_tree.specs.Meaning.{meaning_of};
ghost use Rattle.policy_eval.specs.Obligations.{MeetsHandlerObligations};
ghost use Rattle.round_model.specs.Updates.{IsFirstPlace};
ghost use Rattle.round_model.specs.Fits.{Fits};
ghost use Rattle.round_model.specs.Limits.{IsWithinLimits};
ghost use Rattle.round_model.specs.Moves.{without_first};
ghost use Rattle.round_judge.specs.declared.past.Arrival.{Arrival};
ghost use Rattle.round_judge.specs.Additions.{ended_by};
ghost use Rattle.round_judge.specs.Past.{arrives_at};
ghost use Rattle.serial_steps.specs.Serial.{SerialState, step_of};
ghost use Rattle.core_worker.specs.Runs.{Enters, HasLooked, IsAt, IsMoment, OwesLook, OwesUnit, Steps, Wakes};

use crate::run::Run;
use crate::turn::Look;
use lists::Items;
use policy_tree::Policy;
use round_judge::{Arrival, first_arrival, note_end};
use round_model::{Did, Plan};
use sched_base::{CoreId, ThreadId};
use serial_steps::{NextInTurn, next_in_turn};

impl Run {
    /// Takes the core's next step, if its turn isn't over. Whether it took one.
    pub(crate) fn advance(&mut self, policy: &Policy, plan: &Plan, core: CoreId) -> bool
        requires fits { Fits (meaning_of policy.now) plan.now }
        requires limits { IsWithinLimits plan.now }
        requires handlers { MeetsHandlerObligations (meaning_of policy.now) }
        requires at { IsAt (meaning_of policy.now) plan.now (λ s. Unit {0}) self.old }
        requires core { core < plan.now.cores }
        ensures step { Steps (meaning_of policy.now) plan.now core (λ s. Unit {0}) self.old self.new }
        ensures over { IsFalse result → (s : SerialState) → IsMoment (meaning_of policy.now) plan.now self.old s →
            step_of (meaning_of policy.now) plan.now s core ≡ s }
    {
        let at = core as usize;
        let (worked, attempted) = (self.turns.worked[at], self.turns.attempted[at]);
        let entering = first_arrival(self.arrivals.as_slice(), core);
        let due = self.cores.due(core, self.round);
        match next_in_turn(entering, due, worked, attempted, self.turns.looks[at]) {
            NextInTurn::Enter(thread) => self.let_in(policy, plan, core, thread),
            NextInTurn::Wake(thread) => self.wake(policy, plan, core, thread),
            NextInTurn::Work => self.work(policy, plan, core),
            NextInTurn::Look => self.look(policy, plan, core),
            NextInTurn::Attempt(look) => self.attempt(policy, plan, core, look),
            NextInTurn::Over => return false,
        }
        true
    }

    /// The thread enters by the core.
    fn let_in(&mut self, policy: &Policy, plan: &Plan, core: CoreId, thread: ThreadId)
        requires fits { Fits (meaning_of policy.now) plan.now }
        requires limits { IsWithinLimits plan.now }
        requires handlers { MeetsHandlerObligations (meaning_of policy.now) }
        requires at { IsAt (meaning_of policy.now) plan.now
            (Enters (meaning_of policy.now) plan.now core thread) self.old }
        requires core { core < plan.now.cores }
        ensures { Steps (meaning_of policy.now) plan.now core (Enters (meaning_of policy.now) plan.now core thread)
            self.old self.new }
    {
        let (at, reads) = self.placement(policy, plan, core);
        self.cores.enter(policy, plan, thread, core, at, reads);
        leave_out(&mut self.arrivals, core);
    }

    /// The blocked thread of the core wakes.
    fn wake(&mut self, policy: &Policy, plan: &Plan, core: CoreId, thread: ThreadId)
        requires fits { Fits (meaning_of policy.now) plan.now }
        requires limits { IsWithinLimits plan.now }
        requires handlers { MeetsHandlerObligations (meaning_of policy.now) }
        requires at { IsAt (meaning_of policy.now) plan.now
            (Wakes (meaning_of policy.now) plan.now core thread) self.old }
        requires core { core < plan.now.cores }
        ensures { Steps (meaning_of policy.now) plan.now core (Wakes (meaning_of policy.now) plan.now core thread)
            self.old self.new }
    {
        let (at, reads) = self.placement(policy, plan, core);
        self.cores.wake(policy, plan, thread, core, at, reads);
    }

    /// The core runs its unit.
    fn work(&mut self, policy: &Policy, plan: &Plan, core: CoreId)
        requires fits { Fits (meaning_of policy.now) plan.now }
        requires limits { IsWithinLimits plan.now }
        requires handlers { MeetsHandlerObligations (meaning_of policy.now) }
        requires at { IsAt (meaning_of policy.now) plan.now (OwesUnit (meaning_of policy.now) plan.now core) self.old }
        requires core { core < plan.now.cores }
        ensures { Steps (meaning_of policy.now) plan.now core (OwesUnit (meaning_of policy.now) plan.now core)
            self.old self.new }
    {
        let did = self.cores.work(policy, plan, core, self.round);
        self.turns.worked[core as usize] = true;
        note_did(&mut self.ended, did);
    }

    /// The core looks at all cores.
    fn look(&mut self, policy: &Policy, plan: &Plan, core: CoreId)
        requires fits { Fits (meaning_of policy.now) plan.now }
        requires limits { IsWithinLimits plan.now }
        requires handlers { MeetsHandlerObligations (meaning_of policy.now) }
        requires at { IsAt (meaning_of policy.now) plan.now (OwesLook (meaning_of policy.now) plan.now core) self.old }
        requires core { core < plan.now.cores }
        ensures { Steps (meaning_of policy.now) plan.now core (OwesLook (meaning_of policy.now) plan.now core)
            self.old self.new }
    {
        let look = Look {
            reads: self.cores.fresh_reads(plan),
            choice: self.cores.choice(policy, plan, core),
        };
        self.turns.looks[core as usize] = Some(look);
    }

    /// The core makes its attempt by this look.
    fn attempt(&mut self, policy: &Policy, plan: &Plan, core: CoreId, look: Look)
        requires fits { Fits (meaning_of policy.now) plan.now }
        requires limits { IsWithinLimits plan.now }
        requires handlers { MeetsHandlerObligations (meaning_of policy.now) }
        requires at { IsAt (meaning_of policy.now) plan.now
            (HasLooked (meaning_of policy.now) plan.now core look) self.old }
        requires core { core < plan.now.cores }
        ensures { Steps (meaning_of policy.now) plan.now core (HasLooked (meaning_of policy.now) plan.now core look)
            self.old self.new }
    {
        self.cores
            .attempt(policy, plan, core, look.choice, look.reads);
        self.turns.attempted[core as usize] = true;
    }
}

/// What became of the thread that ran: it may have ended.
fn note_did(ended: &mut Items<bool>, did: Did)
    ensures { ended.new ≡ ended_by did ended.old }
{
    match did {
        Did::Nothing | Did::Kept(_) | Did::Queued(_) | Did::Blocked(_) => {}
        Did::Ended(thread) => note_end(ended, thread),
    }
}

/// The first thread that the core was to let in has entered.
fn leave_out(arrivals: &mut Vec<Arrival>, core: CoreId)
    ensures threads { arrivals.new.items ≡ without_first (arrives_at core) arrivals.old.items }
    ensures room { vec_capacity arrivals.new ≡ vec_capacity arrivals.old }
{
    if let Some(place) = first_place(arrivals.as_slice(), core) {
        let _arrival = arrivals.remove(place);
    }
}

/// The place of the first of these arrivals that comes by the core.
fn first_place(arrivals: &[Arrival], core: CoreId) -> Option<usize>
    ensures { IsFirstPlace (arrives_at core) arrivals.now result }
{
    for at in 0..arrivals.len() {
        if arrivals[at].core == core {
            return Some(at);
        }
    }
    None
}
