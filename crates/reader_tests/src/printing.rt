//! What is printed of the trace that a text spells.

use crate::traces::read;
use std::alloc::{AllocError, Global};
use trace_printer::print_trace;

/// What is printed, where the same is printed of what is printed.
pub(crate) fn printed_again(alloc: Global, text: &[u8]) -> Result<String, AllocError> {
    let once = printed(alloc, text)?;
    let again = printed(alloc, once.as_bytes())?;
    if again == once {
        Ok(once)
    } else {
        String::from_str(alloc, "another text")
    }
}

/// What is printed of the trace. It is ASCII.
fn printed(alloc: Global, text: &[u8]) -> Result<String, AllocError> {
    match read(alloc, text) {
        Ok(trace) => String::from_utf8_lossy(alloc, print_trace(alloc, &trace)?.as_slice()),
        Err(_fault) => String::from_str(alloc, "no trace"),
    }
}
