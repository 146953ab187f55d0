//! Reads a trace's text, and makes the plan that it means under a policy.

ghost use Rattle.std.specs.Prelude.{◌<◌, ◌≡◌, IfErr, IfOk, length};
ghost use Rattle.policy_tree.specs.Meaning.{meaning_of};
ghost use Rattle.policy_eval.specs.Resolved.{IsResolved};
ghost use Rattle.trace_play.specs.Plays.{IsPlanStop, MeansPlan, stop_of};

use crate::fault::{LineFault, of_plan, of_trace};
use job_trace::{plan, read_trace};
use policy_tree::Policy;
use round_model::Plan;
use std::alloc::Global;

/// Why a text gives no plan.
#[derive(Clone, Copy)]
pub enum PlanStop {
    /// The text is no trace, or its trace doesn't fit the policy: it has this fault.
    Broken(LineFault),
    /// There was no memory for the trace or the plan.
    Memory,
}

/// The plan that the trace of the text means under the policy.
pub fn plan_text(alloc: Global, policy: &Policy, text: &[u8]) -> Result<Plan, PlanStop>
    requires resolved { IsResolved (meaning_of policy.now) }
    requires small { length text.now < u32.MAX }
    ensures plan { IfOk result (MeansPlan (meaning_of policy.now) text.now) }
    ensures stop { IfErr result (IsPlanStop (meaning_of policy.now) text.now) }
{
    let trace = match read_trace(alloc, text) {
        Ok(trace) => trace,
        Err(fault) => return Err(stop(of_trace(fault))),
    };
    match plan(alloc, &trace, policy) {
        Ok(plan) => Ok(plan),
        Err(fault) => Err(stop(of_plan(fault))),
    }
}

/// The fault, or want of memory where there is none.
fn stop(fault: Option<LineFault>) -> PlanStop
    ensures { result ≡ stop_of fault }
{
    match fault {
        Some(fault) => PlanStop::Broken(fault),
        None => PlanStop::Memory,
    }
}
