//! Laws of printed traces.

ghost use Rattle.trace_printer.specs.Printed.{IsReadAgain};

/// The printed text of a trace spells the same lines again, numbered from 1.
pub fn law_read_again()
    ensures { IsReadAgain }
{}
