//! What a bench comes to.

ghost use Rattle.std.specs.Prelude.{◌≡◌, IfOk};
ghost use Rattle.policy_tree.specs.Meaning.{meaning_of};
ghost use Rattle.round_model.specs.Fits.{Fits};
ghost use Rattle.round_model.specs.Limits.{IsWithinLimits};
ghost use Rattle.serial_steps.specs.Room.{HasRoomForRounds};
ghost use Rattle.serial_steps.specs.SerialEnds.{EndsWhole};
ghost use Rattle.fair_policy.specs.Fair.{fair_meaning};
ghost use Rattle.bench_play.specs.Bench.{IsBench, IsSize};

use crate::memory::BenchMemory;
use crate::planning::made_plan;
use policy_checker::AcceptedPolicy;
use policy_tree::Policy;
use round_model::{History, Plan};
use sched_report::{Totals, report};
use serial_steps::Played;
use std::alloc::Global;
use trace_play::play_plan;

/// What a bench comes to.
#[derive(Clone, Copy)]
pub struct BenchTotals {
    /// How many threads the trace has.
    pub threads: u32,
    /// What the history comes to.
    pub totals: Totals,
}

/// Plays the made trace of so many threads, which the seed determines, under the policy `fair`.
pub fn play_bench(
    alloc: Global,
    policy: &AcceptedPolicy,
    seed: u64,
    size: u32,
) -> Result<BenchTotals, BenchMemory>
    requires policy { meaning_of policy.now ≡ fair_meaning }
    requires size { IsSize size }
    ensures is { IfOk result (IsBench seed size) }
{
    let under = policy.policy();
    let plan = made_plan(alloc, under, seed, size)?;
    let history = whole_history(alloc, under, &plan)?;
    let told = report(alloc, under, &plan, &history)?;
    Ok(BenchTotals {
        threads: size,
        totals: told.totals,
    })
}

/// The serial history of a plan with room for its rounds. It is whole.
fn whole_history(alloc: Global, policy: &Policy, plan: &Plan) -> Result<History, BenchMemory>
    requires policy { meaning_of policy.now ≡ fair_meaning }
    requires fits { Fits (meaning_of policy.now) plan.now }
    requires limits { IsWithinLimits plan.now }
    requires room { HasRoomForRounds plan.now }
    ensures { IfOk result (EndsWhole (meaning_of policy.now) plan.now) }
{
    match play_plan(alloc, policy, plan)? {
        Played::Whole(history) => Ok(history),
        // No round comes due that might not fit.
        Played::Full(_history) => unreachable!(),
    }
}
