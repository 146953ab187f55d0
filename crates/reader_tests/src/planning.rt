//! Which plan a trace means under a policy. `POLICY; TRACE` spells the two.

use crate::plans::plan_answer;
use crate::policies::{load_of, policy};
use crate::traces::read;
use job_trace::Trace;
use policy_tree::Load;
use std::alloc::{AllocError, Global};

/// The plan, or the word of its fault and the line.
pub(crate) fn planned(alloc: Global, text: &[u8]) -> Result<String, AllocError> {
    let Some((load, attributes, trace)) = parts(text) else {
        return String::from_str(alloc, "no policy");
    };
    match read(alloc, trace) {
        Ok(trace) => planned_under(alloc, load, attributes, &trace),
        Err(_fault) => String::from_str(alloc, "no trace"),
    }
}

/// The load of the policy, the spelling of its attributes, and the trace.
fn parts(text: &[u8]) -> Option<(Load, &str, &[u8])> {
    let (policy, trace) = str::from_utf8(text).ok()?.split_once("; ")?;
    Some((load_of(policy)?, policy, trace.as_bytes()))
}

/// The plan of the trace under the policy with this load and the attributes that are spelled so.
pub(crate) fn planned_under(
    alloc: Global,
    load: Load,
    attributes: &str,
    trace: &Trace,
) -> Result<String, AllocError> {
    match policy(alloc, load, attributes) {
        Ok(policy) => plan_answer(alloc, trace, &policy),
        Err(error) => Err(error),
    }
}
