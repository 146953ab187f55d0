//! What a core does next in its turn, found from a past.

ghost use Rattle.std.specs.Prelude.{◌≡◌, ◌≢◌, ◌<◌, IfSome, IsFalse, IsNone, IsTrue, Some};
ghost use Rattle.policy_tree.specs.Meaning.{meaning_of};
ghost use Rattle.policy_eval.specs.Obligations.{MeetsHandlerObligations};
ghost use Rattle.round_model.specs.After.{after, round_of};
ghost use Rattle.round_model.specs.Attempts.{attempt_of};
ghost use Rattle.round_model.specs.Choices.{target_of};
ghost use Rattle.round_model.specs.Entries.{acting_core};
ghost use Rattle.round_model.specs.Fits.{Fits};
ghost use Rattle.round_model.specs.Legal.{LegalNext, rounds_begun};
ghost use Rattle.round_model.specs.Outcomes.{values_at};
ghost use Rattle.round_model.specs.Scenes.{has_attempted, own_entries};
ghost use Rattle.round_model.specs.Progress.{HasLetIn, OwesAttempt};
ghost use Rattle.round_model.specs.Work.{worked};
ghost use Rattle.round_judge.specs.Readable.{ReadIn};
ghost use Rattle.round_judge.specs.Past.{IsPastOf, OfEach};
ghost use Rattle.serial_steps.specs.declared.turns.NextStep.TheVariants as next;
ghost use Rattle.serial_steps.specs.Turns.{ActsBy, IsStepOf, MayAdd, placement_by};
ghost use Rattle.serial_steps.specs.Turns.{step_of_dids};

use policy_tree::{PlaceRule, Policy};
use round_judge::Past;
use round_judge::glances::{attempt, placed};
use round_judge::progress::{arriving, waking};
use round_judge::unit::next_unit;
use round_model::attempt::Attempt;
use round_model::{Entry, Plan};
use sched_base::{CoreId, Reads};
use serial_steps::{NextInTurn, NextStep, next_in_turn};

/// The next step of the core in its turn of the open round. `fresh` is what it would read of all cores just now, and
/// `look` what it has read in a look that no attempt has followed yet.
pub fn next_step(
    policy: &Policy,
    plan: &Plan,
    past: &Past,
    core: CoreId,
    fresh: &Reads,
    look: Option<Reads>,
) -> NextStep
    requires fits { Fits (meaning_of policy.now) plan.now }
    requires handlers { MeetsHandlerObligations (meaning_of policy.now) }
    requires past { IsPastOf (meaning_of policy.now) plan.now past.now }
    requires begun { 0 < past.now.rounds }
    requires core { core < plan.now.cores }
    requires fresh { ReadIn plan.now past.now fresh.now }
    requires look { IfSome look (ReadIn plan.now past.now) }
    ensures step { OfEach (meaning_of policy.now) plan.now past.now (λ history.
        IsStepOf (meaning_of policy.now) plan.now history core fresh.now look result) }
    ensures legal { OfEach (meaning_of policy.now) plan.now past.now (λ history.
        MayAdd (meaning_of policy.now) plan.now history result) }
    ensures acts { ActsBy core result }
    ensures looks { OfEach (meaning_of policy.now) plan.now past.now (λ history.
        result ≡ next.Looks → IsNone look × IsFalse (has_attempted (own_entries history core))) }
    ensures over { OfEach (meaning_of policy.now) plan.now past.now (λ history.
        result ≡ next.Over → IsTrue (has_attempted (own_entries history core))) }
{
    let turn = past.turn(core);
    let (entering, due) = (arriving(past, core), waking(past, core));
    match next_in_turn(entering, due, turn.worked, turn.attempted, look) {
        NextInTurn::Enter(thread) => {
            let (at, reads) = place(policy, plan, past, core, fresh);
            NextStep::Adds(Entry::Enter {
                thread,
                by: core,
                at,
                reads,
            })
        }
        NextInTurn::Wake(thread) => {
            let (at, reads) = place(policy, plan, past, core, fresh);
            NextStep::Adds(Entry::Wake {
                thread,
                by: core,
                at,
                reads,
            })
        }
        NextInTurn::Work => work_step(policy, plan, past, core),
        NextInTurn::Look => NextStep::Looks,
        NextInTurn::Attempt(reads) => {
            NextStep::Adds(attempt_entry(policy, plan, past, core, reads))
        }
        NextInTurn::Over => NextStep::Over,
    }
}

/// Where the core places a thread just now, and what it reads for that.
fn place(policy: &Policy, plan: &Plan, past: &Past, core: CoreId, fresh: &Reads) -> (CoreId, Reads)
    requires fits { Fits (meaning_of policy.now) plan.now }
    requires past { IsPastOf (meaning_of policy.now) plan.now past.now }
    requires core { core < plan.now.cores }
    requires fresh { ReadIn plan.now past.now fresh.now }
    ensures reads { result.1 ≡ placement_by (meaning_of policy.now).place fresh.now }
    ensures target { OfEach (meaning_of policy.now) plan.now past.now (λ history. target_of (meaning_of policy.now)
        plan.now.cores (values_at (meaning_of policy.now) plan.now history result.1) core ≡ Some result.0) }
{
    match &policy.place {
        PlaceRule::Here => (core, Reads::empty()),
        PlaceRule::Least(_) => (placed(policy, plan, past, core, fresh), *fresh),
    }
}

/// The unit of the core.
fn work_step(policy: &Policy, plan: &Plan, past: &Past, core: CoreId) -> NextStep
    requires fits { Fits (meaning_of policy.now) plan.now }
    requires handlers { MeetsHandlerObligations (meaning_of policy.now) }
    requires past { IsPastOf (meaning_of policy.now) plan.now past.now }
    requires core { core < plan.now.cores }
    ensures step { OfEach (meaning_of policy.now) plan.now past.now (λ history. result ≡ step_of_dids core
        (worked (meaning_of policy.now) plan.now (round_of history)
        (after (meaning_of policy.now) plan.now history core)).dids) }
    ensures acts { ActsBy core result }
    ensures looks { result ≢ next.Looks }
    ensures runs { OfEach (meaning_of policy.now) plan.now past.now (λ history. result ≢ next.Over) }
{
    match next_unit(policy, plan, past, core).did() {
        None => NextStep::Over,
        Some(did) => NextStep::Adds(Entry::Work { by: core, did }),
    }
}

/// The attempt of the core by what it has read.
fn attempt_entry(policy: &Policy, plan: &Plan, past: &Past, core: CoreId, reads: Reads) -> Entry
    requires fits { Fits (meaning_of policy.now) plan.now }
    requires handlers { MeetsHandlerObligations (meaning_of policy.now) }
    requires past { IsPastOf (meaning_of policy.now) plan.now past.now }
    requires core { core < plan.now.cores }
    requires read { ReadIn plan.now past.now reads }
    ensures acts { acting_core result ≡ Some core }
    ensures attempt { OfEach (meaning_of policy.now) plan.now past.now
        (λ history. result ≡ attempt_of (meaning_of policy.now)
        plan.now (after (meaning_of policy.now) plan.now history)
        (values_at (meaning_of policy.now) plan.now history reads) core reads) }
    ensures legal { OfEach (meaning_of policy.now) plan.now past.now (λ history. 0 < rounds_begun history →
        OwesAttempt history core → LegalNext (meaning_of policy.now) plan.now history result) }
{
    match attempt(policy, plan, past, core, &reads) {
        Attempt::Pass => Entry::Pass { by: core, reads },
        Attempt::Fail(from) => Entry::Fail {
            by: core,
            from,
            reads,
        },
        Attempt::Steal(from, threads) => Entry::Steal {
            by: core,
            from,
            threads,
            reads,
        },
    }
}
