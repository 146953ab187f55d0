//! One core changed, and an entry logged at each core that it touches.

ghost use Rattle.std.specs.Prelude.{◌≡◌, ◌+◌, ◌<◌, ◌≤◌, All, IsFalse, IsSome, Some, length, option_map};
ghost use Rattle.sched_base.specs.declared.limits.TheConstants.{MAX_CORES, MAX_ENTRIES, MAX_ROUNDS};
ghost use Rattle.policy_tree.specs.Meaning.{Meaning, meaning_of};
ghost use Rattle.policy_eval.specs.Fitting.{IsTask};
ghost use Rattle.policy_eval.specs.Obligations.{MeetsHandlerObligations};
ghost use Rattle.policy_eval.specs.Resolved.{IsResolved};
ghost use Rattle.round_model.specs.Fits.{Fits};
ghost use Rattle.round_model.specs.Kinds.{is_round};
ghost use Rattle.round_model.specs.Moves.{admitted, blocked_of, released};
ghost use Rattle.round_model.specs.Work.{IsOutcomeOfWork, core_after_work};
ghost use Rattle.core_moves.specs.Code.Changes.{AreNoted, Becomes, CanAdmit, CanLog, CanRun, HoldsAt, Notes};

use crate::cores::Cores;
use core_state::CoreState;
use policy_tree::Policy;
use round_model::{Did, Entry, Plan};
use sched_base::{CoreId, MAX_CORES, MAX_ENTRIES, MAX_ROUNDS, Pos, Task, ThreadId};

impl Cores {
    /// The task comes to the core by its enqueue event; `fresh` where it enters just now.
    pub(crate) fn admit(&mut self, policy: &Policy, core: CoreId, task: Task, fresh: bool)
        requires policy { IsResolved (meaning_of policy.now) }
        requires handlers { MeetsHandlerObligations (meaning_of policy.now) }
        requires task { IsTask (meaning_of policy.now) task }
        requires core { core < length self.old.cores }
        requires can { HoldsAt self.old.cores core (CanAdmit (meaning_of policy.now)) }
        ensures { (p : Meaning) → Becomes p core (admitted (meaning_of policy.now) fresh task) self.old self.new }
    {
        self.cores[core as usize].admit(policy, task, fresh);
    }

    /// Takes the blocked thread out of the core.
    pub(crate) fn release(&mut self, core: CoreId, thread: ThreadId) -> Task
        requires core { core < length self.old.cores }
        requires there { HoldsAt self.old.cores core (λ y. IsSome (blocked_of thread y.core)) }
        ensures task { HoldsAt self.old.cores core
            (λ y. option_map (λ b. b.task) (blocked_of thread y.core) ≡ Some result) }
        ensures core { (p : Meaning) → Becomes p core (released thread) self.old self.new }
    {
        self.cores[core as usize].release_blocked(thread)
    }

    /// The core runs one unit in that round. It says what became of the thread that ran.
    pub(crate) fn run(&mut self, policy: &Policy, plan: &Plan, core: CoreId, round: u32) -> Did
        requires fits { Fits (meaning_of policy.now) plan.now }
        requires handlers { MeetsHandlerObligations (meaning_of policy.now) }
        requires core { core < length self.old.cores }
        requires can { HoldsAt self.old.cores core (CanRun (meaning_of policy.now) plan.now) }
        requires round { round ≤ MAX_ROUNDS }
        ensures did { HoldsAt self.old.cores core
            (λ y. IsOutcomeOfWork (meaning_of policy.now) plan.now round y.core result) }
        ensures core { (p : Meaning) →
            Becomes p core (core_after_work (meaning_of policy.now) plan.now round) self.old self.new }
    {
        self.cores[core as usize].work(policy, plan, round)
    }

    /// The entry, which begins no round, comes to the logs of the cores that it touches.
    pub(crate) fn note(&mut self, entry: &Entry)
        requires kind { IsFalse (is_round entry.now) }
        requires room { self.old.entries < MAX_ENTRIES }
        requires can { All (CanLog self.old.entries) self.old.cores }
        ensures { Notes entry.now self.old self.new }
    {
        note_all(self.cores.as_mut_slice(), self.entries, entry);
        self.entries += 1;
    }
}

/// The entry of that position comes to the logs of the cores that it touches.
fn note_all(cores: &mut [CoreState], at: Pos, entry: &Entry)
    requires few { length cores.old ≤ MAX_CORES }
    requires can { All (CanLog at) cores.old }
    ensures { AreNoted at entry.now cores.old cores.new }
{
    for core in 0..cores.len() {
        if entry.touches(core as CoreId) {
            cores[core].log(at, *entry);
        }
    }
}
