//! The top call: every command over files, a sink and a gate that are handed in.

ghost use Rattle.std.specs.Prelude.{◌≡◌, ◌≢◌, ◌⊎◌, ℕ, [], ◌∷◌, IfErr, IfOk, IsErrOf, IsFalse};
ghost use Rattle.std.specs.Prelude.{IsTrue, OnOk, Some, codes, slice_get};
ghost use Rattle.sched_io.specs.Faults.{Rose};
ghost use Rattle.sched_io.specs.Loads.{AreRequested};
ghost use Rattle.command_words.specs.Command.{IsSerial, asked_by, words_of};
ghost use Rattle.ipanema_cli.specs.Answers.{CanBePut};
ghost use Rattle.ipanema_cli.specs.Ends.{Ends};
ghost use Rattle.ipanema_cli.specs.Causes.{HasCause, OneOf};
ghost use Rattle.ipanema_cli.specs.Loads.{FirstAreLoaded, files_of};
ghost use Rattle.ipanema_cli.specs.Replies.{IsAnswer, IsGatedAnswer};
ghost use Rattle.ipanema_cli.specs.Stops.{IsStop};
ghost use Rattle.ipanema_cli.specs.Truths.{IsTruthful, NonePassed};

use crate::answers::{Answer, run_texts};
use crate::commands::reply;
use crate::ending::conclude;
use crate::files::load_asked;
use crate::stop::Stop;
use command_words::{Request, request_of};
use sched_io::{Files, Gate, Sink};
use std::alloc::Global;
use std::sync::Wait;
use std::thread::Threads;
use trace_run::Players;

/// Carries out the command that the words are, and answers the status for the shell.
///
/// The words are those of the call without the program's name. Files come from `files`, and output goes to `out`. Where
/// cores play side by side, each passes `gate` in its turn of a round, between its unit and its look, so that tests can
/// have them meet there. That each core passes it in each round is a clause; where in its turn is not.
pub fn ipanema<R: Threads + Wait + Sync, F: Files, S: Sink, G: Gate + Sync>(
    rt: &R,
    alloc: Global,
    words: &Vec<String>,
    files: &mut F,
    out: &mut S,
    gate: &G,
) -> u8
    requires gate { (c r : ℕ) → IsTrue (G.admits gate.now c r) }
    // One definition says how the call ends for these words and these files.
    ensures ends { Ends (asked_by (words_of words.now.items)) (F.told files.old)
        (Rose (F.faults files.old) (F.faults files.new)) (S.shown out.old) (S.shown out.new) result }
    // Each status has its cause.
    ensures causes { HasCause (asked_by (words_of words.now.items)) (F.told files.old)
        (Rose (F.faults files.old) (F.faults files.new)) (S.shown out.old) (S.shown out.new) result }
    // What is said of a policy, of a trace and of certificates is true, and the cores of a run passed the gate.
    ensures truthful { IsTruthful (G.passed gate.now) (asked_by (words_of words.now.items)) (F.told files.old)
        (S.shown out.old).written (S.shown out.new).written result }
    // Just the first of the command's files are loaded, each once and with its limit, and none
    // behind one that is told to be missing or too long.
    ensures loads { FirstAreLoaded (asked_by (words_of words.now.items)) (F.told files.old)
        (F.requested files.old) (F.requested files.new) }
    // And where a text was answered, or no command was, all of them are.
    ensures loaded { OneOf (0 ∷ 1 ∷ 2 ∷ 3 ∷ 7 ∷ 8 ∷ 9 ∷ 11 ∷ []) result →
        AreRequested (files_of (asked_by (words_of words.now.items))) (F.requested files.old) (F.requested files.new) }
    // Where the files' count of faults moves, the call ends with 4, and where the sink's does, with 5.
    ensures calm { (result ≡ 4) ⊎ (F.faults files.new ≡ F.faults files.old) }
    ensures quiet { (result ≡ 5) ⊎ ((S.shown out.new).faults ≡ (S.shown out.old).faults) }
{
    let list = words.as_slice();
    if may_take_threads(list) {
        return conclude(answer(rt, alloc, list, files, gate), out);
    }
    serial_command(alloc, words, files, out)
}

/// Carries out the command that the words are, where it plays no cores side by side, as `run` and `crew` do.
///
/// All that `ipanema` promises is promised here. But this call has no runtime and no gate, so it can't wait: it
/// returns, as every call does that has no leave to wait.
pub fn serial_command<F: Files, S: Sink>(
    alloc: Global,
    words: &Vec<String>,
    files: &mut F,
    out: &mut S,
) -> u8
    requires serial { IsSerial (asked_by (words_of words.now.items)) }
    ensures ends { Ends (asked_by (words_of words.now.items)) (F.told files.old)
        (Rose (F.faults files.old) (F.faults files.new)) (S.shown out.old) (S.shown out.new) result }
    ensures causes { HasCause (asked_by (words_of words.now.items)) (F.told files.old)
        (Rose (F.faults files.old) (F.faults files.new)) (S.shown out.old) (S.shown out.new) result }
    ensures truthful { IsTruthful NonePassed (asked_by (words_of words.now.items)) (F.told files.old)
        (S.shown out.old).written (S.shown out.new).written result }
    ensures loads { FirstAreLoaded (asked_by (words_of words.now.items)) (F.told files.old)
        (F.requested files.old) (F.requested files.new) }
    ensures loaded { OneOf (0 ∷ 1 ∷ 2 ∷ 3 ∷ 7 ∷ 8 ∷ 9 ∷ 11 ∷ []) result →
        AreRequested (files_of (asked_by (words_of words.now.items))) (F.requested files.old) (F.requested files.new) }
    ensures calm { (result ≡ 4) ⊎ (F.faults files.new ≡ F.faults files.old) }
    ensures quiet { (result ≡ 5) ⊎ ((S.shown out.new).faults ≡ (S.shown out.old).faults) }
{
    conclude(serial_answer(alloc, words.as_slice(), files), out)
}

/// Whether the first word is `run` or `crew`, whose commands play cores side by side.
fn may_take_threads(words: &[String]) -> bool
    ensures no_run { IsFalse result → slice_get (words_of words.now) 0 ≢ Some (codes "run") }
    ensures no_crew { IsFalse result → slice_get (words_of words.now) 0 ≢ Some (codes "crew") }
{
    match words {
        [first, ..] => matches!(first.as_str(), "run" | "crew"),
        [] => false,
    }
}

/// The answer to what the words ask for, where that plays no cores side by side.
fn serial_answer<F: Files>(alloc: Global, words: &[String], files: &mut F) -> Result<Answer, Stop>
    requires serial { IsSerial (asked_by (words_of words.now)) }
    ensures answer { IfOk result (IsAnswer (asked_by (words_of words.now)) (F.told files.old)) }
    ensures shown { IfOk result CanBePut }
    ensures stop { IfErr result (IsStop (asked_by (words_of words.now)) (F.told files.old)
        (Rose (F.faults files.old) (F.faults files.new))) }
    ensures loads { FirstAreLoaded (asked_by (words_of words.now)) (F.told files.old)
        (F.requested files.old) (F.requested files.new) }
    ensures loaded { OnOk result (AreRequested (files_of (asked_by (words_of words.now)))
        (F.requested files.old) (F.requested files.new)) }
    ensures calm { IsErrOf result Stop.Unread ⊎ (F.faults files.new ≡ F.faults files.old) }
{
    let request = request_of(alloc, words)?;
    let texts = load_asked(alloc, files, request)?;
    reply(alloc, request, &texts)
}

/// The answer to what the words ask for.
fn answer<R: Threads + Wait + Sync, F: Files, G: Gate + Sync>(
    rt: &R,
    alloc: Global,
    words: &[String],
    files: &mut F,
    gate: &G,
) -> Result<Answer, Stop>
    requires gate { (c r : ℕ) → IsTrue (G.admits gate.now c r) }
    ensures answer { IfOk result (IsGatedAnswer (G.passed gate.now) (asked_by (words_of words.now))
        (F.told files.old)) }
    ensures shown { IfOk result CanBePut }
    ensures stop { IfErr result (IsStop (asked_by (words_of words.now)) (F.told files.old)
        (Rose (F.faults files.old) (F.faults files.new))) }
    ensures loads { FirstAreLoaded (asked_by (words_of words.now)) (F.told files.old)
        (F.requested files.old) (F.requested files.new) }
    ensures loaded { OnOk result (AreRequested (files_of (asked_by (words_of words.now)))
        (F.requested files.old) (F.requested files.new)) }
    ensures calm { IsErrOf result Stop.Unread ⊎ (F.faults files.new ≡ F.faults files.old) }
{
    let request = request_of(alloc, words)?;
    let texts = load_asked(alloc, files, request)?;
    let (policy, trace) = (texts.policy.as_slice(), texts.trace.as_slice());
    match request {
        Request::Run { .. } => run_texts(rt, alloc, Players::ThreadEach, policy, trace, gate),
        Request::Crew { workers, .. } => {
            run_texts(rt, alloc, Players::Crew(workers), policy, trace, gate)
        }
        other => reply(alloc, other, &texts),
    }
}
