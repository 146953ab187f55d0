//! Made traces. `SEED SIZE` spells one.

use crate::planning::planned_under;
use job_trace::Trace;
use policy_tree::Load;
use std::alloc::{AllocError, Global};
use trace_maker::{MakeFault, make_trace};

/// How many lines the trace has, or why there is none.
pub(crate) fn made_lines(alloc: Global, text: &[u8]) -> Result<String, AllocError> {
    match made(alloc, text) {
        Ok(trace) => format!(in alloc; "made {}", trace.lines().len()),
        Err(MakeFault::Size) => String::from_str(alloc, "size"),
        Err(MakeFault::Memory) => Err(AllocError),
    }
}

/// The plan of the trace under a policy whose load is the weight, 1 to 8.
pub(crate) fn made_plan(alloc: Global, text: &[u8]) -> Result<String, AllocError> {
    match made(alloc, text) {
        Ok(trace) => planned_under(alloc, Load::Weight { lo: 1, hi: 8 }, "", &trace),
        Err(_fault) => String::from_str(alloc, "no trace"),
    }
}

/// The trace.
fn made(alloc: Global, text: &[u8]) -> Result<Trace, MakeFault> {
    let (seed, size) = seed_and_size(text).ok_or(MakeFault::Size)?;
    make_trace(alloc, seed, size)
}

/// The two numbers.
fn seed_and_size(text: &[u8]) -> Option<(u64, u32)> {
    let (seed, size) = str::from_utf8(text).ok()?.split_once(' ')?;
    Some((seed.parse().ok()?, size.parse().ok()?))
}
