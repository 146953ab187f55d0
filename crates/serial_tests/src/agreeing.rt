//! Seeded plans under a policy whose steals move up to eight threads, each played in five ways.

ghost use Rattle.std.specs.Prelude.{◌≡◌};
ghost use Rattle.policy_tree.specs.Meaning.{meaning_of};
ghost use Rattle.policy_eval.specs.Obligations.{MeetsHandlerObligations};
ghost use Rattle.round_model.specs.Fits.{Fits};
ghost use Rattle.round_model.specs.Limits.{IsWithinLimits};
ghost use Rattle.model_tests.specs.Policies.{in_batches};

use crate::agreement::Agreement;
use crate::at_table::{by_crew, by_hand, in_threads};
use crate::dice::rolled;
use crate::judging::{agrees, comes_whole, has_batches, has_fails, is_whole};
use crate::plans::plan;
use crate::playing::{by_cores, by_lists};
use policy_tree::Policy;
use round_model::Plan;
use std::alloc::Global;
use std::sync::Wait;
use std::thread::Threads;

/// So many plans are played.
const PLANS: u32 = 500;

/// What the dice show before they are rolled.
const SEED: u64 = 2026;

/// What all plans come to.
pub(crate) fn of_all<R: Threads + Wait + Sync>(rt: &R, alloc: Global, policy: &Policy) -> Agreement
    requires { meaning_of policy.now ≡ in_batches 8 }
{
    let mut dice = SEED;
    let mut all = Agreement::of_none();
    for _ in 0..PLANS {
        dice = rolled(dice);
        all = all.and(of_one(rt, alloc, policy, dice));
    }
    all
}

/// What the plan of these dice comes to.
fn of_one<R: Threads + Wait + Sync>(rt: &R, alloc: Global, policy: &Policy, dice: u64) -> Agreement
    requires { meaning_of policy.now ≡ in_batches 8 }
{
    match plan(alloc, dice) {
        Ok(plan) => of_plan(rt, alloc, policy, &plan),
        Err(_) => Agreement::failed(),
    }
}

/// What the plan comes to in each way of playing it.
fn of_plan<R: Threads + Wait + Sync>(
    rt: &R,
    alloc: Global,
    policy: &Policy,
    plan: &Plan,
) -> Agreement
    requires fits { Fits (meaning_of policy.now) plan.now }
    requires limits { IsWithinLimits plan.now }
    requires handlers { MeetsHandlerObligations (meaning_of policy.now) }
{
    let Some(plain) = by_lists(alloc, policy, plan) else {
        return Agreement::failed();
    };
    let whole = is_whole(alloc, policy, plan, &plain);
    let alone = by_crew(rt, alloc, policy, plan, 1);
    Agreement {
        by_cores: whole && agrees(alloc, policy, plan, by_cores(alloc, policy, plan), &plain),
        by_hand: whole
            && agrees(
                alloc,
                policy,
                plan,
                by_hand(rt, alloc, policy, plan),
                &plain,
            ),
        in_threads: comes_whole(alloc, policy, plan, in_threads(rt, alloc, policy, plan)),
        fails_alone: has_fails(&alone),
        by_crews: comes_whole(alloc, policy, plan, alone)
            && comes_whole(alloc, policy, plan, by_crew(rt, alloc, policy, plan, 2)),
        in_batches: has_batches(&plain),
    }
}
