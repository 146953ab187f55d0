//! How each kind of entry moves the cores.

ghost use Rattle.std.specs.Prelude.{◌≡◌, ◌≢◌, ◌<◌, [], ◌∷◌, ◌++◌, IfSome, IsTrue};
ghost use Rattle.policy_tree.specs.Meaning.{Meaning, meaning_of};
ghost use Rattle.policy_eval.specs.Obligations.{MeetsHandlerObligations};
ghost use Rattle.round_model.specs.declared.entry.Entry.TheVariants as entry;
ghost use Rattle.round_model.specs.declared.plan.Plan.{Plan};
ghost use Rattle.round_model.specs.After.{after};
ghost use Rattle.round_model.specs.Attempts.{attempt_with};
ghost use Rattle.round_model.specs.Fits.{Fits};
ghost use Rattle.round_model.specs.Kinds.{is_attempt};
ghost use Rattle.core_moves.specs.Cores.{AreCoresOf, AreReached, Shows};
ghost use Rattle.core_moves.specs.Moves.{Admits, AdmitsNext, AdmitsWork, Moved, Worked};
ghost use Rattle.core_moves.specs.Sights.{OfEach};

use crate::cores::Cores;
use core_state::Logged;
use policy_tree::Policy;
use round_model::{Did, Entry, Plan, entering_task, planned};
use sched_base::{CoreId, Reads, ThreadId};

impl Cores {
    /// The round of that number begins.
    pub fn begin(&mut self, number: u32)
        requires { Admits (entry.Round number) self.old }
        ensures { (p : Meaning) (plan : Plan) → Moved p plan (entry.Round number) self.old self.new }
    {
        let at = self.entries;
        let entry = Entry::Round { number };
        self.rounds.push_reserved(Logged { at, entry });
        self.entries = at + 1;
        self.start = at + 1;
    }

    /// The thread of the plan enters by the core `by` on the core `at`.
    pub fn enter(
        &mut self,
        policy: &Policy,
        plan: &Plan,
        thread: ThreadId,
        by: CoreId,
        at: CoreId,
        reads: Reads,
    )
        requires fits { Fits (meaning_of policy.now) plan.now }
        requires handlers { MeetsHandlerObligations (meaning_of policy.now) }
        requires next { AdmitsNext (meaning_of policy.now) plan.now (entry.Enter thread by at reads) self.old }
        ensures { Moved (meaning_of policy.now) plan.now (entry.Enter thread by at reads) self.old self.new }
    {
        let Some(planned) = planned(plan, thread) else {
            unreachable!()
        };
        self.admit(policy, at, entering_task(policy, planned), true);
        self.note(&Entry::Enter {
            thread,
            by,
            at,
            reads,
        });
    }

    /// The blocked thread of the core `by` wakes on the core `at`.
    pub fn wake(
        &mut self,
        policy: &Policy,
        plan: &Plan,
        thread: ThreadId,
        by: CoreId,
        at: CoreId,
        reads: Reads,
    )
        requires fits { Fits (meaning_of policy.now) plan.now }
        requires handlers { MeetsHandlerObligations (meaning_of policy.now) }
        requires next { AdmitsNext (meaning_of policy.now) plan.now (entry.Wake thread by at reads) self.old }
        ensures { Moved (meaning_of policy.now) plan.now (entry.Wake thread by at reads) self.old self.new }
    {
        let task = self.release(by, thread);
        self.admit(policy, at, task, false);
        self.note(&Entry::Wake {
            thread,
            by,
            at,
            reads,
        });
    }

    /// The core runs its unit of the open round, which has that number. It says what became of the thread that ran.
    pub fn work(&mut self, policy: &Policy, plan: &Plan, core: CoreId, round: u32) -> Did
        requires fits { Fits (meaning_of policy.now) plan.now }
        requires handlers { MeetsHandlerObligations (meaning_of policy.now) }
        requires may { AdmitsWork (meaning_of policy.now) plan.now core round self.old }
        ensures { Worked (meaning_of policy.now) plan.now core round result self.old self.new }
    {
        let did = self.run(policy, plan, core, round);
        self.note(&Entry::Work { by: core, did });
        did
    }

    /// The core makes its attempt of the round by that choice and what it has read. The cores as they are decide what
    /// comes of it: a steal, a fail or a pass. It tells that entry.
    pub fn attempt(
        &mut self,
        policy: &Policy,
        plan: &Plan,
        core: CoreId,
        choice: Option<CoreId>,
        reads: Reads,
    ) -> Entry
        requires fits { Fits (meaning_of policy.now) plan.now }
        requires handlers { MeetsHandlerObligations (meaning_of policy.now) }
        requires reached { AreReached (meaning_of policy.now) plan.now self.old }
        requires room { self.old.entries < plan.now.limit }
        requires core { core < plan.now.cores }
        requires choice { IfSome choice (λ v. (v < plan.now.cores) × (core ≢ v)) }
        ensures entry { OfEach (meaning_of policy.now) plan.now self.old (λ history. result ≡ attempt_with
            (meaning_of policy.now) plan.now (after (meaning_of policy.now) plan.now history) core reads choice) }
        ensures cores { OfEach (meaning_of policy.now) plan.now self.old (λ history.
            AreCoresOf (meaning_of policy.now) plan.now (history ++ result ∷ []) self.new) }
    {
        let entry = self.move_by(policy, plan, core, choice, reads);
        self.note(&entry);
        entry
    }

    /// The threads that the attempt takes, if it takes any, go over to the core that makes it. Its entry isn't logged.
    fn move_by(
        &mut self,
        policy: &Policy,
        plan: &Plan,
        core: CoreId,
        choice: Option<CoreId>,
        reads: Reads,
    ) -> Entry
        requires fits { Fits (meaning_of policy.now) plan.now }
        requires handlers { MeetsHandlerObligations (meaning_of policy.now) }
        requires reached { AreReached (meaning_of policy.now) plan.now self.old }
        requires core { core < plan.now.cores }
        requires choice { IfSome choice (λ v. (v < plan.now.cores) × (core ≢ v)) }
        ensures kind { IsTrue (is_attempt result) }
        ensures entry { OfEach (meaning_of policy.now) plan.now self.old (λ history. result ≡ attempt_with
            (meaning_of policy.now) plan.now (after (meaning_of policy.now) plan.now history) core reads choice) }
        ensures cores { OfEach (meaning_of policy.now) plan.now self.old (λ history. Shows (meaning_of policy.now)
            plan.now history (after (meaning_of policy.now) plan.now (history ++ result ∷ [])) self.new) }
    {
        match choice {
            None => Entry::Pass { by: core, reads },
            Some(from) => {
                let threads = self.steal(policy, plan, core, from);
                Entry::steal_or_fail(core, from, threads, reads)
            }
        }
    }
}
