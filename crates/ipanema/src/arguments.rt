//! From the arguments of the process to its exit status.

ghost use Rattle.std.specs.Prelude.{◌≡◌, ◌⊎◌, [], ◌∷◌, IfOk};
ghost use Rattle.std.specs.Process.{exit_status};
ghost use Rattle.std.specs.Vec.Iter.{into_iter_items};
ghost use Rattle.sched_io.specs.Faults.{Rose};
ghost use Rattle.sched_io.specs.Loads.{AreRequested};
ghost use Rattle.ipanema.specs.Arguments.{Anyone, words_given};
ghost use Rattle.command_words.specs.Command.{asked_by, words_of};
ghost use Rattle.ipanema_cli.specs.Causes.{HasCause, OneOf};
ghost use Rattle.ipanema_cli.specs.Ends.{Ends};
ghost use Rattle.ipanema_cli.specs.Loads.{FirstAreLoaded, files_of};
ghost use Rattle.ipanema_cli.specs.Truths.{IsTruthful};

use ipanema_cli::{Status, ipanema};
use sched_io::{Files, OpenGate, Sink};
use std::alloc::{AllocError, Global};
use std::env::Args;
use std::io;
use std::io::ErrorKind;
use std::process::ExitCode;
use std::sync::Wait;
use std::thread::Threads;

/// Carries out what the arguments of the process ask for, and gives its exit status.
///
/// The first argument is the program's name.
pub fn exit_code<R: Threads + Wait + Sync, F: Files, S: Sink>(
    rt: &R,
    alloc: Global,
    args: io::Result<Args>,
    files: &mut F,
    out: &mut S,
) -> ExitCode
    ensures ends { Ends (asked_by (words_given args)) (F.told files.old)
        (Rose (F.faults files.old) (F.faults files.new)) (S.shown out.old) (S.shown out.new) (exit_status result) }
    ensures causes { HasCause (asked_by (words_given args)) (F.told files.old)
        (Rose (F.faults files.old) (F.faults files.new)) (S.shown out.old) (S.shown out.new) (exit_status result) }
    ensures truthful { IsTruthful Anyone (asked_by (words_given args)) (F.told files.old)
        (S.shown out.old).written (S.shown out.new).written (exit_status result) }
    ensures loads { FirstAreLoaded (asked_by (words_given args)) (F.told files.old)
        (F.requested files.old) (F.requested files.new) }
    ensures loaded { OneOf (0 ∷ 1 ∷ 2 ∷ 3 ∷ 7 ∷ 8 ∷ 9 ∷ 11 ∷ []) (exit_status result) →
        AreRequested (files_of (asked_by (words_given args))) (F.requested files.old) (F.requested files.new) }
    ensures calm { (exit_status result ≡ 4) ⊎ (F.faults files.new ≡ F.faults files.old) }
    ensures quiet { (exit_status result ≡ 5) ⊎ ((S.shown out.new).faults ≡ (S.shown out.old).faults) }
{
    match words_of_arguments(alloc, args) {
        Ok(words) => ExitCode::from(ipanema(rt, alloc, &words, files, out, &OpenGate)),
        Err(_unstored) => ExitCode::from(Status::Memory.code()),
    }
}

/// The words that the arguments are: those behind the program's name, and none where they are no text.
fn words_of_arguments(alloc: Global, args: io::Result<Args>) -> Result<Vec<String>, AllocError>
    ensures { IfOk result (λ words. words_of words.items ≡ words_given args) }
{
    match args {
        Ok(mut args) => match args.next() {
            Some(_program) => words_left(alloc, args),
            None => Ok(Vec::new(alloc)),
        },
        Err(error) => match error.kind() {
            ErrorKind::OutOfMemory => Err(AllocError),
            _ => Ok(Vec::new(alloc)),
        },
    }
}

/// The arguments that are left.
fn words_left(alloc: Global, args: Args) -> Result<Vec<String>, AllocError>
    ensures { IfOk result (λ words. words.items ≡ into_iter_items args) }
{
    let mut words = Vec::new(alloc);
    for word in args {
        words.push(word)?;
    }
    Ok(words)
}
