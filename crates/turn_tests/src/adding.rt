//! One entry more, at the end of a history in memory.

ghost use Rattle.std.specs.Prelude.{◌≡◌, ◌+◌, ◌<◌, ◌^◌, [], ◌∷◌, ◌++◌, length};
ghost use Rattle.policy_tree.specs.Meaning.{meaning_of};
ghost use Rattle.policy_eval.specs.Obligations.{MeetsHandlerObligations};
ghost use Rattle.round_model.specs.Fits.{Fits};
ghost use Rattle.round_model.specs.Legal.{LegalNext};
ghost use Rattle.round_judge.specs.Past.{IsPastOf, OfEach, StandsFor};
ghost use Rattle.round_judge.specs.Steps.{IsNextAfter};
ghost use Rattle.turn_tests.specs.Memory.{HasGrown, IsKept, MayGrow, history_of};

use crate::memory_calls::MemoryCalls;
use policy_tree::Policy;
use round_judge::{Past, step};
use round_model::{Entry, History, Plan};
use sched_base::Pos;
use std::alloc::Global;
use std::sync::Wait;

/// Puts the entry at the end. Where there is no memory for it just now, it tries again.
fn append<R: Wait>(rt: &R, history: &mut History, entry: &Entry)
    requires { length history.old + 1 < 2 ^ 32 }
    ensures { history.new ≡ history.old ++ entry.now ∷ [] }
{
    for _ in rt.forever() {
        if history.push(*entry).is_ok() {
            return;
        }
    }
    unreachable!()
}

/// Adds the entry to what is kept of a history. Where there is no memory for it just now, it tries again.
fn keep<R: Wait>(
    rt: &R,
    alloc: Global,
    policy: &Policy,
    plan: &Plan,
    past: &mut Past,
    entry: &Entry,
)
    requires fits { Fits (meaning_of policy.now) plan.now }
    requires handlers { MeetsHandlerObligations (meaning_of policy.now) }
    requires past { IsPastOf (meaning_of policy.now) plan.now past.old }
    requires next { IsNextAfter (meaning_of policy.now) plan.now past.old entry.now }
    ensures stands { OfEach (meaning_of policy.now) plan.now past.old (λ history.
        LegalNext (meaning_of policy.now) plan.now history entry.now →
        StandsFor (meaning_of policy.now) plan.now past.new (history ++ entry.now ∷ [])) }
    ensures belongs { IsPastOf (meaning_of policy.now) plan.now past.new }
{
    for _ in rt.forever() {
        if step(alloc, policy, plan, past, *entry).is_ok() {
            return;
        }
    }
    unreachable!()
}

impl MemoryCalls<'_> {
    /// Adds an entry that is legal next, and says at which position.
    pub(crate) fn add<R: Wait>(&mut self, rt: &R, entry: &Entry) -> Pos
        requires kept { IsKept self.old }
        requires next { MayGrow self.old entry.now }
        ensures at { result ≡ length (history_of self.old) }
        ensures grown { HasGrown entry.now self.old self.new }
    {
        let at = self.history.len();
        keep(
            rt,
            self.alloc,
            self.policy,
            self.plan,
            &mut self.past,
            entry,
        );
        append(rt, &mut self.history, entry);
        at
    }
}
