//! The plan of a made trace under the policy `fair`.

ghost use Rattle.std.specs.Prelude.{◌≡◌, IfOk};
ghost use Rattle.policy_tree.specs.Meaning.{meaning_of};
ghost use Rattle.fair_policy.specs.Fair.{fair_meaning};
ghost use Rattle.trace_maker.specs.Made.{made_trace};
ghost use Rattle.bench_play.specs.Bench.{IsMadePlan, IsSize};

use crate::memory::BenchMemory;
use job_trace::{PlanFault, Trace, plan};
use policy_tree::Policy;
use round_model::Plan;
use std::alloc::Global;
use trace_maker::{MakeFault, make_trace};

/// The plan that the made trace means.
pub(crate) fn made_plan(
    alloc: Global,
    policy: &Policy,
    seed: u64,
    size: u32,
) -> Result<Plan, BenchMemory>
    requires policy { meaning_of policy.now ≡ fair_meaning }
    requires size { IsSize size }
    ensures { IfOk result (IsMadePlan seed size) }
{
    let trace = trace_of(alloc, seed, size)?;
    match plan(alloc, &trace, policy) {
        Ok(plan) => Ok(plan),
        Err(PlanFault::Memory) => Err(BenchMemory::Memory),
        // Each made line fits the policy.
        Err(PlanFault::WeightRange(_line)) => unreachable!(),
        Err(PlanFault::ConstRange(_line)) => unreachable!(),
        Err(PlanFault::ConstName(_line)) => unreachable!(),
    }
}

/// The made trace.
fn trace_of(alloc: Global, seed: u64, size: u32) -> Result<Trace, BenchMemory>
    requires { IsSize size }
    ensures { IfOk result (λ trace. trace ≡ made_trace seed size) }
{
    match make_trace(alloc, seed, size) {
        Ok(trace) => Ok(trace),
        Err(MakeFault::Memory) => Err(BenchMemory::Memory),
        // The size is one that a trace may have.
        Err(MakeFault::Size) => unreachable!(),
    }
}
