//! All that the process does, over any writer.

ghost use Rattle.std.specs.Prelude.{◌≡◌, ◌⊎◌, ℕ, None, [], ◌∷◌, IfSome};
ghost use Rattle.std.specs.Process.{exit_status};
ghost use Rattle.sched_io.specs.Adapters.{TellsAlwaysOrNever};
ghost use Rattle.sched_io.specs.Faults.{Rose};
ghost use Rattle.sched_io.specs.Loads.{AreRequested};
ghost use Rattle.ipanema.specs.Arguments.{Anyone, shown_by, words_given};
ghost use Rattle.command_words.specs.Command.{asked_by};
ghost use Rattle.ipanema_cli.specs.Causes.{HasCause, OneOf};
ghost use Rattle.ipanema_cli.specs.Ends.{Ends};
ghost use Rattle.ipanema_cli.specs.Loads.{FirstAreLoaded, files_of};
ghost use Rattle.ipanema_cli.specs.Status.{code_of};
ghost use Rattle.ipanema_cli.specs.Truths.{IsTruthful};

use crate::arguments::exit_code;
use ipanema_cli::Status;
use sched_io::{Files, WriterSink};
use std::alloc::Global;
use std::env::Args;
use std::io;
use std::io::{BufWriter, Write};
use std::process::ExitCode;
use std::sync::Wait;
use std::thread::Threads;

/// How the process ended.
#[derive(Drop)]
pub struct Ended<W> {
    /// Its exit status.
    pub code: ExitCode,
    /// The writer, behind all bytes that the call wrote; none where some of them were lost, or there was no memory for
    /// the buffer.
    pub writer: Option<W>,
}

impl<W> Ended<W> {
    /// An end with that status, of which the writer isn't told.
    fn without_writer(status: Status) -> Self
        ensures code { exit_status result.code ≡ code_of status }
        ensures writer { result.writer ≡ None }
    {
        Ended {
            code: ExitCode::from(status.code()),
            writer: None,
        }
    }
}

/// Does all that the process does: it carries out what the arguments ask for, through a buffer, and gives the exit status.
///
/// Bytes wait in the buffer, and the last ones reach the writer at the end. Where they don't, the status is that of a
/// failed write, whatever the call's own was.
pub fn carry_out<R: Threads + Wait + Sync, F: Files, W: Write + Drop>(
    rt: &R,
    alloc: Global,
    args: io::Result<Args>,
    files: &mut F,
    writer: W,
) -> Ended<W>
    requires { TellsAlwaysOrNever W.contents }
    ensures ends { IfSome result.writer (λ written. (faults : ℕ) × Ends (asked_by (words_given args))
        (F.told files.old) (Rose (F.faults files.old) (F.faults files.new))
        (shown_by (W.contents writer) 0) (shown_by (W.contents written) faults) (exit_status result.code)) }
    ensures causes { IfSome result.writer (λ written. (faults : ℕ) × HasCause (asked_by (words_given args))
        (F.told files.old) (Rose (F.faults files.old) (F.faults files.new))
        (shown_by (W.contents writer) 0) (shown_by (W.contents written) faults) (exit_status result.code)) }
    ensures truthful { IfSome result.writer (λ written. IsTruthful Anyone (asked_by (words_given args))
        (F.told files.old) (W.contents writer) (W.contents written) (exit_status result.code)) }
    ensures lost { result.writer ≡ None → OneOf (5 ∷ 6 ∷ []) (exit_status result.code) }
    ensures loads { FirstAreLoaded (asked_by (words_given args)) (F.told files.old)
        (F.requested files.old) (F.requested files.new) }
    ensures loaded { OneOf (0 ∷ 1 ∷ 2 ∷ 3 ∷ 7 ∷ 8 ∷ 9 ∷ 11 ∷ []) (exit_status result.code) →
        AreRequested (files_of (asked_by (words_given args))) (F.requested files.old) (F.requested files.new) }
    ensures calm { (exit_status result.code ≡ 4) ⊎ ((exit_status result.code ≡ 5)
        ⊎ (F.faults files.new ≡ F.faults files.old)) }
{
    let Ok(buffer) = BufWriter::new(alloc, writer) else {
        return Ended::without_writer(Status::Memory);
    };
    let mut out = WriterSink::new(buffer);
    let code = exit_code(rt, alloc, args, files, &mut out);
    match out.into_writer().into_inner() {
        Ok(written) => Ended {
            code,
            writer: Some(written),
        },
        Err(_lost) => Ended::without_writer(Status::WriteFault),
    }
}
