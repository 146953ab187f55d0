//! What the text of a trace is read as.

use job_trace::{Trace, TraceFault, read_trace};
use std::alloc::{AllocError, Global};

/// How many lines of the text are read, or its first fault with the line and the limit.
pub(crate) fn trace_answer(alloc: Global, text: &[u8]) -> Result<String, AllocError> {
    match read(alloc, text) {
        Ok(trace) => format!(in alloc; "read {}", trace.lines().len()),
        Err(TraceFault::BadLine(line)) => format!(in alloc; "bad-line {line}"),
        Err(TraceFault::Limit(line, limit)) => format!(in alloc; "limit {line} {limit}"),
        Err(TraceFault::Twice(line)) => format!(in alloc; "twice {line}"),
        Err(TraceFault::Memory) => Err(AllocError),
    }
}

/// What the text is read as. No table has one that is too long to be read at all.
pub(crate) fn read(alloc: Global, text: &[u8]) -> Result<Trace, TraceFault> {
    if text.len() >= u32::MAX as usize {
        return Err(TraceFault::Memory);
    }
    read_trace(alloc, text)
}
