//! A sink over a writer, and standard output as such a sink.

ghost use Rattle.std.specs.Prelude.{◌≡◌};
ghost use Rattle.sched_io.specs.Adapters.{TellsAlwaysOrNever, writer_faults, writer_of};

use crate::faults::PutFault;
use crate::sinks::Sink;
use std::io::Write;
use std::marker::Model;

/// A sink over a writer. As a sink it tells the bytes that the writer tells. The bytes of standard output aren't told.
#[derive(Drop)]
pub struct WriterSink<W: Write> {
    writer: W,
    faults: u64,
}

impl<W: Write> Model for WriterSink<W> {
    ghost use Rattle.std.specs.Prelude.{ℕ};

    ghost Value = { W × ℕ };

    ghost use Rattle.sched_io.specs.Adapters.{TellsAlwaysOrNever};

    ghost view = { λ sink. (sink.writer, sink.faults) };

    ghost invariant = { λ _. TellsAlwaysOrNever W.contents };
}

impl<W: Write> WriterSink<W> {
    /// A sink over this writer.
    pub fn new(writer: W) -> WriterSink<W>
        requires { TellsAlwaysOrNever W.contents }
        ensures faults { writer_faults result ≡ 0 }
        ensures writer { writer_of result ≡ writer }
    {
        WriterSink { writer, faults: 0 }
    }

    /// The writer.
    pub fn into_writer(self) -> W
        ensures { result ≡ writer_of self }
    {
        self.writer
    }
}

impl<W: Write> Sink for WriterSink<W> {
    ghost use Rattle.std.specs.Prelude.{◌≡◌, IfOk, OnErr, take};
    ghost use Rattle.std.specs.Io.KnownBytes.{Appends, Keeps};
    ghost use Rattle.sched_io.specs.Adapters.{shown_by_writer, writer_of};
    ghost use Rattle.sched_io.specs.Shown.{Refuses, Takes};

    ghost shown = { shown_by_writer W.contents };

    fn put(&mut self, piece: &[u8]) -> Result<u64, PutFault>
        ensures takes { IfOk result (λ count. Takes piece.now count (shown_by_writer W.contents self.old)
            (shown_by_writer W.contents self.new)) }
        ensures refuses { OnErr result (Refuses piece.now (shown_by_writer W.contents self.old)
            (shown_by_writer W.contents self.new)) }

        // Just the bytes that were taken reach the writer, in a short write too.
        ensures appends { IfOk result (λ count.
            Appends (W.contents (writer_of self.old)) (W.contents (writer_of self.new)) (take count piece.now)) }
        ensures keeps { OnErr result (Keeps (W.contents (writer_of self.old)) (W.contents (writer_of self.new))) }
    {
        if piece.is_empty() {
            return Ok(0);
        }
        match self.writer.write(piece) {
            Ok(count) if count > 0 => Ok(count as u64),
            _ => {
                self.faults = self.faults.saturating_add(1);
                Err(PutFault::Failed)
            }
        }
    }
}
