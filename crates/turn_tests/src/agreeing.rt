//! Small plans, played by whole turns and step by step.

ghost use Rattle.std.specs.Prelude.{◌≡◌, ◌⊎◌};
ghost use Rattle.policy_tree.specs.Meaning.{meaning_of};
ghost use Rattle.policy_eval.specs.Obligations.{MeetsHandlerObligations};
ghost use Rattle.round_model.specs.Fits.{Fits};
ghost use Rattle.round_model.specs.Limits.{IsWithinLimits};
ghost use Rattle.fair_policy.specs.Fair.{fair_meaning};
ghost use Rattle.model_tests.specs.Policies.{basic};

use crate::finding::{Finding, all_hold, told};
use crate::memory_calls::MemoryCalls;
use crate::playing::{Way, play_all};
use crate::small_plans::{PLANS, trace_of};
use crate::texts::{plan_of_text, spelled};
use crate::turnstile::Turnstile;
use core_calls::Turned;
use fair_policy::fair_policy;
use model_tests::builders::basic_policy;
use policy_tree::Policy;
use round_model::Plan;
use sched_io::MemorySink;
use std::alloc::Global;
use std::io;
use std::sync::Wait;

/// What comes of a plan: what each turn tells, and the text of its history.
#[derive(Drop)]
struct Played {
    told: Vec<Option<Turned>>,
    text: MemorySink,
}

/// All small plans under a policy without placement, and under one with it.
pub(crate) fn on_small_plans<R: Print + Wait>(rt: &R, alloc: Global) -> io::Result<()> {
    told(rt, "small plans under basic", under_basic(rt, alloc))?;
    told(rt, "small plans under fair", under_fair(rt, alloc))
}

/// What is found under the basic policy.
fn under_basic<R: Wait>(rt: &R, alloc: Global) -> Option<Finding> {
    let Ok(policy) = basic_policy(alloc) else {
        return None;
    };
    both_ways(rt, alloc, &policy)
}

/// What is found under the fair policy.
fn under_fair<R: Wait>(rt: &R, alloc: Global) -> Option<Finding> {
    let Ok(policy) = fair_policy(alloc) else {
        return None;
    };
    both_ways(rt, alloc, &policy)
}

/// Whether both ways come to the same under that policy.
fn both_ways<R: Wait>(rt: &R, alloc: Global, policy: &Policy) -> Option<Finding>
    requires { (meaning_of policy.now ≡ basic) ⊎ (meaning_of policy.now ≡ fair_meaning) }
{
    for number in 0..PLANS {
        if !of_number(rt, alloc, policy, number)? {
            return Some(all_hold(&[("steps and turns come to the same", false)]));
        }
    }
    Some(Finding::Expected)
}

/// Whether they do on the plan of that number.
fn of_number<R: Wait>(rt: &R, alloc: Global, policy: &Policy, number: usize) -> Option<bool>
    requires { (meaning_of policy.now ≡ basic) ⊎ (meaning_of policy.now ≡ fair_meaning) }
{
    let Ok(trace) = trace_of(alloc, number) else {
        return None;
    };
    let plan = plan_of_text(alloc, policy, trace.as_str())?;
    of_plan(rt, alloc, policy, &plan)
}

/// Whether they do on this plan.
fn of_plan<R: Wait>(rt: &R, alloc: Global, policy: &Policy, plan: &Plan) -> Option<bool>
    requires fits { Fits (meaning_of policy.now) plan.now }
    requires limits { IsWithinLimits plan.now }
    requires handlers { MeetsHandlerObligations (meaning_of policy.now) }
{
    let whole = play(rt, alloc, policy, plan, Way::Whole)?;
    let by_step = play(rt, alloc, policy, plan, Way::ByStep)?;
    let same_told = whole.told.as_slice() == by_step.told.as_slice();
    Some(same_told && whole.text.bytes() == by_step.text.bytes())
}

/// What comes of the plan where turns are taken that way.
fn play<R: Wait>(rt: &R, alloc: Global, policy: &Policy, plan: &Plan, way: Way) -> Option<Played>
    requires fits { Fits (meaning_of policy.now) plan.now }
    requires limits { IsWithinLimits plan.now }
    requires handlers { MeetsHandlerObligations (meaning_of policy.now) }
{
    let Ok(mut calls) = MemoryCalls::open(alloc, policy, plan) else {
        return None;
    };
    let told = play_all(rt, alloc, &mut calls, &Turnstile::new(), way);
    let history = calls.into_history();
    let text = spelled(alloc, policy, plan, history.as_slice())?;
    match told {
        Ok(told) => Some(Played { told, text }),
        Err(_fault) => None,
    }
}
