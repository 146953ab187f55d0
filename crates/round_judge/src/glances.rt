//! What an entry saw of other cores, and what follows from it.

ghost use Rattle.std.specs.Prelude.{◌≡◌, ◌≢◌, ◌↔◌, ◌+◌, ◌<◌, ◌≤◌, ℕ, IfSome, IsTrue, Some, length, slice_index};
ghost use Rattle.policy_tree.specs.Meaning.{Meaning, meaning_of};
ghost use Rattle.policy_eval.specs.Fitting.{CoreFits};
ghost use Rattle.policy_eval.specs.Obligations.{MeetsHandlerObligations};
ghost use Rattle.round_model.specs.After.{after};
ghost use Rattle.round_model.specs.Attempts.{attempt_of};
ghost use Rattle.round_model.specs.Choices.{choice_of, target_of, values_in};
ghost use Rattle.round_model.specs.Fits.{Fits};
ghost use Rattle.round_model.specs.Outcomes.{IsAttemptBy, IsPlacedBy, entry_of_attempt, values_at};
ghost use Rattle.round_model.specs.Reads.{ReadsFit, round_start, values_of as values_by};
ghost use Rattle.round_judge.specs.Readable.{ReadIn};
ghost use Rattle.round_judge.specs.Past.{IsPastOf, IsWindow, OfEach, seen_in};

use crate::attempts::outcome;
use crate::past::Past;
use policy_eval::CoreValues;
use policy_tree::{PlaceRule, Policy};
use round_model::attempt::Attempt;
use round_model::{Plan, choice, reads_fit, target, values_of};
use sched_base::{CoreId, MAX_CORES, Reads};

/// Where the core places a thread by these reads, and `None` where they aren't such as it may have made.
pub(crate) fn placement(
    policy: &Policy,
    plan: &Plan,
    past: &Past,
    core: CoreId,
    reads: &Reads,
) -> Option<CoreId>
    requires fits { Fits (meaning_of policy.now) plan.now }
    requires past { IsPastOf (meaning_of policy.now) plan.now past.now }
    requires core { core < plan.now.cores }
    ensures { OfEach (meaning_of policy.now) plan.now past.now (λ history.
        IsPlacedBy (meaning_of policy.now) plan.now history core reads.now result) }
{
    match &policy.place {
        PlaceRule::Here => { if reads.is_empty() { Some(core) } else { None } }
        PlaceRule::Least(_) => {
            if were_made(plan, past, reads) {
                Some(placed(policy, plan, past, core, reads))
            } else {
                None
            }
        }
    }
}

/// The attempt of the core by these reads, and `None` where they aren't such as it may have made.
pub(crate) fn attempt_by(
    policy: &Policy,
    plan: &Plan,
    past: &Past,
    core: CoreId,
    reads: &Reads,
) -> Option<Attempt>
    requires fits { Fits (meaning_of policy.now) plan.now }
    requires handlers { MeetsHandlerObligations (meaning_of policy.now) }
    requires past { IsPastOf (meaning_of policy.now) plan.now past.now }
    requires core { core < plan.now.cores }
    ensures { OfEach (meaning_of policy.now) plan.now past.now (λ history.
        IsAttemptBy (meaning_of policy.now) plan.now history core reads.now result) }
{
    if !were_made(plan, past, reads) {
        return None;
    }
    Some(attempt(policy, plan, past, core, reads))
}

/// The attempt of the core by these reads.
pub fn attempt(policy: &Policy, plan: &Plan, past: &Past, core: CoreId, reads: &Reads) -> Attempt
    requires fits { Fits (meaning_of policy.now) plan.now }
    requires handlers { MeetsHandlerObligations (meaning_of policy.now) }
    requires past { IsPastOf (meaning_of policy.now) plan.now past.now }
    requires core { core < plan.now.cores }
    requires read { ReadIn plan.now past.now reads.now }
    ensures { OfEach (meaning_of policy.now) plan.now past.now (λ history. attempt_of (meaning_of policy.now) plan.now
        (after (meaning_of policy.now) plan.now history) (values_at (meaning_of policy.now) plan.now history reads.now)
        core reads.now ≡ entry_of_attempt core reads.now result) }
{
    let chosen = chosen(policy, plan, past, core, reads);
    outcome(policy, plan, &past.state, core, chosen)
}

/// The core of all on which the core places a thread, by these reads.
pub fn placed(policy: &Policy, plan: &Plan, past: &Past, core: CoreId, reads: &Reads) -> CoreId
    requires fits { Fits (meaning_of policy.now) plan.now }
    requires past { IsPastOf (meaning_of policy.now) plan.now past.now }
    requires core { core < plan.now.cores }
    requires read { ReadIn plan.now past.now reads.now }
    ensures { OfEach (meaning_of policy.now) plan.now past.now (λ history. target_of (meaning_of policy.now)
        plan.now.cores (values_at (meaning_of policy.now) plan.now history reads.now) core ≡ Some result) }
{
    let mut values = CoreValues::NOTHING_SEEN;
    read_values(plan, past, reads, &mut values);
    target(policy, &values[..plan.cores as usize], core)
}

/// The choice of the core by these reads.
fn chosen(policy: &Policy, plan: &Plan, past: &Past, core: CoreId, reads: &Reads) -> Option<CoreId>
    requires fits { Fits (meaning_of policy.now) plan.now }
    requires past { IsPastOf (meaning_of policy.now) plan.now past.now }
    requires core { core < plan.now.cores }
    requires read { ReadIn plan.now past.now reads.now }
    ensures there { IfSome result (λ v. (v < plan.now.cores) × (core ≢ v)) }
    ensures choice { OfEach (meaning_of policy.now) plan.now past.now (λ history. result ≡ choice_of
        (meaning_of policy.now) plan.now.cores (values_at (meaning_of policy.now) plan.now history reads.now) core) }
{
    let mut values = CoreValues::NOTHING_SEEN;
    read_values(plan, past, reads, &mut values);
    choice(policy, &values[..plan.cores as usize], core)
}

/// Whether there is a read of each core, in the open round and no later than now.
fn were_made(plan: &Plan, past: &Past, reads: &Reads) -> bool
    requires { IsWindow past.now }
    ensures window { IsTrue result → ReadIn plan.now past.now reads.now }
    ensures fit { (p : Meaning) → OfEach p plan.now past.now
        (λ history. IsTrue result ↔ ReadsFit plan.now.cores (round_start history) (length history) reads.now) }
{
    reads_fit(reads, plan.cores, past.start(), past.entries)
}

/// Writes what these reads saw of each core, in its place: by the row of the position at which it was read.
fn read_values(plan: &Plan, past: &Past, reads: &Reads, values: &mut [CoreValues; MAX_CORES])
    requires window { IsWindow past.now }
    requires read { ReadIn plan.now past.now reads.now }
    requires few { plan.now.cores ≤ MAX_CORES }
    requires consts { length plan.now.consts ≡ plan.now.cores }
    ensures len { length values.new ≡ MAX_CORES }
    ensures fits { (p : Meaning) → Fits p plan.now → IsPastOf p plan.now past.now → (c : ℕ) → c < plan.now.cores →
        CoreFits p (values_in values.new c) }
    ensures values { (p : Meaning) → OfEach p plan.now past.now (λ history. (c : ℕ) → c < plan.now.cores →
        values_in values.new c ≡ values_at p plan.now history reads.now c) }
{
    for core in 0..plan.cores {
        values[core as usize] = value_of(plan, past, reads, core);
    }
}

/// What these reads saw of the core.
fn value_of(plan: &Plan, past: &Past, reads: &Reads, core: CoreId) -> CoreValues
    requires window { IsWindow past.now }
    requires read { ReadIn plan.now past.now reads.now }
    requires core { core < plan.now.cores }
    requires few { plan.now.cores ≤ MAX_CORES }
    requires consts { length plan.now.consts ≡ plan.now.cores }
    ensures { (k : ℕ) → past.now.entries + k + 1 ≡ slice_index reads.now core + length past.now.rows →
        result ≡ values_by plan.now core (seen_in past.now.rows k core) }
{
    let at = reads.get(core) - past.start();
    values_of(plan, core, past.rows.get(at)[core as usize])
}
