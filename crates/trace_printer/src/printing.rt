//! The text of a trace.

ghost use Rattle.std.specs.Prelude.{◌≡◌, IfOk};
ghost use Rattle.job_trace.specs.TraceText.{SpellsTrace};
ghost use Rattle.trace_printer.specs.Printed.{renumbered, trace_text};

use crate::text::Text;
use job_trace::Trace;
use std::alloc::{AllocError, Global};

/// The lines of the trace, each with a line feed, one space between two words, the weight of each thread, and numbers
/// without leading zeros.
pub fn print_trace(alloc: Global, trace: &Trace) -> Result<Vec<u8>, AllocError>
    ensures text { IfOk result (λ text. text.items ≡ trace_text trace.now) }

    // What is printed spells the trace again, but for the numbers of its lines.
    ensures again { IfOk result (λ text. SpellsTrace text.items (renumbered 1 trace.now)) }
{
    let mut text = Text {
        bytes: Vec::new(alloc),
    };
    for numbered in trace.lines() {
        text.line(&numbered.line)?;
    }
    let Text { bytes } = text;
    Ok(bytes)
}
