//! The outcome of an attempt.

ghost use Rattle.std.specs.Prelude.{◌≡◌, ◌≢◌, ◌<◌, ◌≤◌, ℕ, All, IfSome, List, Some, length, slice_get};
ghost use Rattle.std.specs.Prelude.{sum_by};
ghost use Rattle.sched_base.specs.declared.limits.TheConstants.{MAX_THREADS};
ghost use Rattle.policy_tree.specs.Meaning.{Meaning, meaning_of};
ghost use Rattle.policy_eval.specs.Fitting.{CoreFits};
ghost use Rattle.round_model.specs.Attempts.{attempt_on as attempt_by, attempt_with, steal_or_fail};
ghost use Rattle.round_model.specs.Bounds.{CoreInBounds, standing_count};
ghost use Rattle.round_model.specs.Batches.{QueuesStandOnce};
ghost use Rattle.round_model.specs.Outcomes.{entry_of_attempt};
ghost use Rattle.round_model.specs.Cores.{Cores, listed, seen_of};
ghost use Rattle.round_model.specs.Fits.{Fits};
ghost use Rattle.round_model.specs.Reads.{values_of as seen_values};
ghost use Rattle.round_model.specs.declared.state.ModelCore.{ModelCore};
ghost use Rattle.round_judge.specs.Readable.{IsCountable};

use crate::batches::moves;
use policy_eval::CoreValues;
use policy_tree::Policy;
use round_model::attempt::Attempt;
use round_model::{Plan, State, values_of};
use sched_base::{CoreId, Stolen};

/// What comes of the attempt of the core with this choice, by the cores as they are.
pub(crate) fn outcome(
    policy: &Policy,
    plan: &Plan,
    state: &State,
    core: CoreId,
    chosen: Option<CoreId>,
) -> Attempt
    requires fits { Fits (meaning_of policy.now) plan.now }
    requires cores { length state.now ≡ plan.now.cores }
    requires bounds { All (CoreInBounds (meaning_of policy.now)) state.now }
    requires few { sum_by standing_count state.now ≤ MAX_THREADS }
    requires core { core < plan.now.cores }
    requires chosen { IfSome chosen (λ v. (v < plan.now.cores) × (core ≢ v)) }
    ensures { (m : Cores) (reads : List ℕ) → state.now ≡ listed plan.now.cores m → QueuesStandOnce plan.now.cores m →
        attempt_with (meaning_of policy.now) plan.now m core reads chosen ≡ entry_of_attempt core reads result }
{
    match chosen {
        None => Attempt::Pass,
        Some(victim) => attempt_on(victim, stealable(policy, plan, state, core, victim)),
    }
}

/// What comes of an attempt on that core that moves these threads.
fn attempt_on(victim: CoreId, threads: Stolen) -> Attempt
    ensures { (core : ℕ) (reads : List ℕ) →
        steal_or_fail core victim reads threads ≡ entry_of_attempt core reads result }
{
    if threads.is_empty() {
        Attempt::Fail(victim)
    } else {
        Attempt::Steal(victim, threads)
    }
}

/// The threads that the core may take of the victim.
fn stealable(policy: &Policy, plan: &Plan, state: &State, core: CoreId, victim: CoreId) -> Stolen
    requires fits { Fits (meaning_of policy.now) plan.now }
    requires cores { length state.now ≡ plan.now.cores }
    requires bounds { All (CoreInBounds (meaning_of policy.now)) state.now }
    requires few { sum_by standing_count state.now ≤ MAX_THREADS }
    requires core { core < plan.now.cores }
    requires victim { victim < plan.now.cores }
    requires apart { core ≢ victim }
    ensures { (m : Cores) (reads : List ℕ) → state.now ≡ listed plan.now.cores m → QueuesStandOnce plan.now.cores m →
        attempt_by (meaning_of policy.now) plan.now m core reads victim ≡ steal_or_fail core victim reads result }
{
    let own = present(plan, state, core);
    let other = present(plan, state, victim);
    moves(policy, &own, &other, state.get(victim))
}

/// What the filter sees of the core as it is.
fn present(plan: &Plan, state: &State, core: CoreId) -> CoreValues
    requires consts { length plan.now.consts ≡ plan.now.cores }
    requires cores { length state.now ≡ plan.now.cores }
    requires few { All IsCountable state.now }
    requires core { core < plan.now.cores }
    ensures fits { (p : Meaning) → Fits p plan.now → All (CoreInBounds p) state.now → CoreFits p result }
    ensures values { (x : ModelCore) → slice_get state.now core ≡ Some x →
        result ≡ seen_values plan.now core (seen_of x) }
{
    let seen = state.get(core).seen();
    values_of(plan, core, seen)
}
