//! Whether an entry is legal next.

ghost use Rattle.std.specs.Prelude.{◌↔◌, ◌-◌, ◌<◌, ◌^◌, IsTrue};
ghost use Rattle.sched_base.specs.declared.limits.TheConstants.{MAX_ENTRIES};
ghost use Rattle.policy_tree.specs.Meaning.{Meaning, meaning_of};
ghost use Rattle.policy_eval.specs.Obligations.{MeetsHandlerObligations};
ghost use Rattle.round_model.specs.declared.entry.Entry.TheVariants as entry;
ghost use Rattle.round_model.specs.Fits.{Fits};
ghost use Rattle.round_model.specs.Legal.{LegalInRound, LegalNext, LegalRound};
ghost use Rattle.round_model.specs.Outcomes.{entry_of_attempt};
ghost use Rattle.round_judge.specs.Past.{IsPastOf, OfEach};
ghost use Rattle.round_judge.specs.Steps.{IsNextAfter};

use crate::glances::{attempt_by, placement};
use crate::past::{Past, round_due};
use crate::progress::{arriving, has_let_in, may_act, owes_attempt, owes_unit, waking};
use crate::unit::next_unit;
use policy_tree::Policy;
use round_model::attempt::Attempt;
use round_model::{Did, Entry, Plan};
use sched_base::{CoreId, Reads, ThreadId};

/// Whether the entry is legal after each history that the past stands for. It takes no memory.
pub fn step_ok(policy: &Policy, plan: &Plan, past: &Past, entry: &Entry) -> bool
    requires fits { Fits (meaning_of policy.now) plan.now }
    requires handlers { MeetsHandlerObligations (meaning_of policy.now) }
    requires past { IsPastOf (meaning_of policy.now) plan.now past.now }
    ensures legal { OfEach (meaning_of policy.now) plan.now past.now
        (λ history. IsTrue result ↔ LegalNext (meaning_of policy.now) plan.now history entry.now) }
    // So where it says yes, and the past stands for a history with room for an entry more, `step` may be called.
    ensures next { IsTrue result → past.now.entries < MAX_ENTRIES → OfEach (meaning_of policy.now) plan.now past.now
        (λ history. IsNextAfter (meaning_of policy.now) plan.now past.now entry.now) }
{
    is_legal(policy, plan, past, entry)
}

fn is_legal(policy: &Policy, plan: &Plan, past: &Past, entry: &Entry) -> bool
    requires fits { Fits (meaning_of policy.now) plan.now }
    requires handlers { MeetsHandlerObligations (meaning_of policy.now) }
    requires past { IsPastOf (meaning_of policy.now) plan.now past.now }
    ensures { OfEach (meaning_of policy.now) plan.now past.now
        (λ history. IsTrue result ↔ LegalNext (meaning_of policy.now) plan.now history entry.now) }
{
    match *entry {
        Entry::Round { number } => may_begin(plan, past, number),
        Entry::Enter {
            thread,
            by,
            at,
            reads,
        } => may_enter(policy, plan, past, thread, by, at, reads),
        Entry::Wake {
            thread,
            by,
            at,
            reads,
        } => may_wake(policy, plan, past, thread, by, at, reads),
        Entry::Work { by, did } => may_work(policy, plan, past, by, did),
        Entry::Steal {
            by,
            from,
            threads,
            reads,
        } => may_attempt(policy, plan, past, by, reads, Attempt::Steal(from, threads)),
        Entry::Fail { by, from, reads } => {
            may_attempt(policy, plan, past, by, reads, Attempt::Fail(from))
        }
        Entry::Pass { by, reads } => may_attempt(policy, plan, past, by, reads, Attempt::Pass),
    }
}

/// Whether the round of that number may begin.
fn may_begin(plan: &Plan, past: &Past, number: u32) -> bool
    requires { past.now.rounds < 2 ^ 32 - 1 }
    ensures { (p : Meaning) → OfEach p plan.now past.now
        (λ history. IsTrue result ↔ LegalRound plan.now history number) }
{
    past.is_complete() && round_due(plan, past) && number == past.rounds + 1
}

/// Whether the core may let the thread in at the core `at`.
fn may_enter(
    policy: &Policy,
    plan: &Plan,
    past: &Past,
    thread: ThreadId,
    by: CoreId,
    at: CoreId,
    reads: Reads,
) -> bool
    requires fits { Fits (meaning_of policy.now) plan.now }
    requires past { IsPastOf (meaning_of policy.now) plan.now past.now }
    ensures { OfEach (meaning_of policy.now) plan.now past.now (λ history. IsTrue result
        ↔ LegalInRound (meaning_of policy.now) plan.now history by (entry.Enter thread by at reads)) }
{
    if !may_act(plan, past, by) {
        return false;
    }
    if arriving(past, by) != Some(thread) {
        return false;
    }
    placement(policy, plan, past, by, &reads) == Some(at)
}

/// Whether the thread may wake by the core, to come to the core `at`.
fn may_wake(
    policy: &Policy,
    plan: &Plan,
    past: &Past,
    thread: ThreadId,
    by: CoreId,
    at: CoreId,
    reads: Reads,
) -> bool
    requires fits { Fits (meaning_of policy.now) plan.now }
    requires past { IsPastOf (meaning_of policy.now) plan.now past.now }
    ensures { OfEach (meaning_of policy.now) plan.now past.now (λ history. IsTrue result
        ↔ LegalInRound (meaning_of policy.now) plan.now history by (entry.Wake thread by at reads)) }
{
    if !has_let_in(plan, past, by) {
        return false;
    }
    if waking(past, by) != Some(thread) {
        return false;
    }
    placement(policy, plan, past, by, &reads) == Some(at)
}

/// Whether the core may run its unit, and whether that is what may be said of it.
fn may_work(policy: &Policy, plan: &Plan, past: &Past, by: CoreId, did: Did) -> bool
    requires fits { Fits (meaning_of policy.now) plan.now }
    requires handlers { MeetsHandlerObligations (meaning_of policy.now) }
    requires past { IsPastOf (meaning_of policy.now) plan.now past.now }
    ensures { OfEach (meaning_of policy.now) plan.now past.now (λ history. IsTrue result
        ↔ LegalInRound (meaning_of policy.now) plan.now history by (entry.Work by did)) }
{
    if !has_let_in(plan, past, by) {
        return false;
    }
    if !owes_unit(past, by) {
        return false;
    }
    next_unit(policy, plan, past, by).tells(did)
}

/// Whether the core may make its attempt by these reads, and whether that is what comes of it.
fn may_attempt(
    policy: &Policy,
    plan: &Plan,
    past: &Past,
    by: CoreId,
    reads: Reads,
    claimed: Attempt,
) -> bool
    requires fits { Fits (meaning_of policy.now) plan.now }
    requires handlers { MeetsHandlerObligations (meaning_of policy.now) }
    requires past { IsPastOf (meaning_of policy.now) plan.now past.now }
    ensures { OfEach (meaning_of policy.now) plan.now past.now (λ history. IsTrue result
        ↔ LegalInRound (meaning_of policy.now) plan.now history by (entry_of_attempt by reads claimed)) }
{
    if !may_act(plan, past, by) {
        return false;
    }
    if !owes_attempt(past, by) {
        return false;
    }
    match attempt_by(policy, plan, past, by, &reads) {
        None => false,
        Some(made) => made.is(claimed),
    }
}
