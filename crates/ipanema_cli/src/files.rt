//! The files of a command, and how they are loaded.

ghost use Rattle.std.specs.Prelude.{◌≡◌, ◌⊎◌, ◌≤◌, ℕ, List, [], ◌∷◌, IfErr, IfOk, IsErrOf, OnOk, length};
ghost use Rattle.std.specs.Prelude.{Some, None, map};
ghost use Rattle.command_words.specs.Asks.{asked};
ghost use Rattle.sched_io.specs.Faults.{Rose};
ghost use Rattle.sched_io.specs.Loads.{AreRequested, load_request};
ghost use Rattle.ipanema_cli.specs.Commands.{asked_files, certified_files, history_files, policy_file, trace_files};
ghost use Rattle.ipanema_cli.specs.Files.{AreRead, file_named, files_named};
ghost use Rattle.ipanema_cli.specs.Loads.{FirstOfThem, load_of};
ghost use Rattle.ipanema_cli.specs.Stops.{IsStopOf, IsUnloaded};
ghost use Rattle.ipanema_cli.specs.Texts.{AreShort, MayRead, room_of, text_of};

use crate::stop::Stop;
use crate::texts::{TextKind, Texts};
use command_words::{HistoryFiles, Request};
use sched_io::{Files, LoadFault};
use std::alloc::Global;

/// The names of a command's files, by the kinds of their texts.
#[derive(Clone, Copy)]
pub struct FileNames<'a> {
    pub policy: Option<&'a str>,
    pub trace: Option<&'a str>,
    pub history: Option<&'a str>,
    pub certificates: Option<&'a str>,
}

impl<'a> FileNames<'a> {
    /// The files of what is asked for.
    fn asked(request: Request<'a>) -> FileNames<'a>
        ensures { files_named result ≡ asked_files (asked request.entry) }
    {
        match request {
            Request::Check { policy } => FileNames::of_policy(policy),
            Request::Explain { policy, .. } => FileNames::of_policy(policy),
            Request::Prove { policy } => FileNames::of_policy(policy),
            Request::Emit { policy } => FileNames::of_policy(policy),
            Request::Draft { policy } => FileNames::of_policy(policy),
            Request::Bound { policy } => FileNames::of_policy(policy),
            Request::Rest { policy } => FileNames::of_policy(policy),
            Request::Waits { policy } => FileNames::of_policy(policy),
            Request::Verify { policy, certs } => FileNames::of_certificates(policy, certs),
            Request::Play { policy, trace } => FileNames::of_trace(policy, trace),
            Request::Run { policy, trace } => FileNames::of_trace(policy, trace),
            Request::Crew { policy, trace, .. } => FileNames::of_trace(policy, trace),
            Request::Simulate { policy, trace } => FileNames::of_trace(policy, trace),
            Request::Waste { policy, trace } => FileNames::of_trace(policy, trace),
            Request::Replay(named) => FileNames::of_history(named),
            Request::Report(named) => FileNames::of_history(named),
            Request::Migrate(named) => FileNames::of_history(named),
            Request::Why(named) => FileNames::of_history(named),
            Request::Make { .. } | Request::Bench { .. } | Request::Unknown => FileNames::none(),
        }
    }

    /// No files.
    fn none() -> FileNames<'a>
        ensures { files_named result ≡ [] }
    {
        FileNames {
            policy: None,
            trace: None,
            history: None,
            certificates: None,
        }
    }

    /// The file of a policy alone.
    fn of_policy(policy: &'a str) -> FileNames<'a>
        ensures { files_named result ≡ policy_file policy.now }
    {
        FileNames {
            policy: Some(policy),
            trace: None,
            history: None,
            certificates: None,
        }
    }

    /// The files of a policy and its certificates.
    fn of_certificates(policy: &'a str, certs: &'a str) -> FileNames<'a>
        ensures { files_named result ≡ certified_files policy.now certs.now }
    {
        FileNames {
            policy: Some(policy),
            trace: None,
            history: None,
            certificates: Some(certs),
        }
    }

    /// The files of a policy and a trace.
    fn of_trace(policy: &'a str, trace: &'a str) -> FileNames<'a>
        ensures { files_named result ≡ trace_files policy.now trace.now }
    {
        FileNames {
            policy: Some(policy),
            trace: Some(trace),
            history: None,
            certificates: None,
        }
    }

    /// The files of a policy, a trace and a history.
    fn of_history(named: HistoryFiles<'a>) -> FileNames<'a>
        ensures { files_named result ≡ history_files named.entry.policy.now named.entry.trace.now
            named.entry.history.now }
    {
        FileNames {
            policy: Some(named.policy),
            trace: Some(named.trace),
            history: Some(named.history),
            certificates: None,
        }
    }
}

/// Loads the files of what is asked for, in their order.
pub fn load_asked<F: Files>(
    alloc: Global,
    files: &mut F,
    request: Request<'_>,
) -> Result<Texts, Stop>
    ensures texts { IfOk result
        (λ texts. AreRead (F.told files.old) (text_of texts) (asked_files (asked request.entry))) }
    ensures short { IfOk result AreShort }
    ensures stop { IfErr result (IsStopOf (asked_files (asked request.entry)) (F.told files.old)
        (Rose (F.faults files.old) (F.faults files.new))) }
    ensures loads { FirstOfThem (asked_files (asked request.entry)) (F.told files.old)
        (F.requested files.old) (F.requested files.new) }
    ensures loaded { OnOk result (AreRequested (map load_of (asked_files (asked request.entry)))
        (F.requested files.old) (F.requested files.new)) }
    ensures calm { IsErrOf result Stop.Unread ⊎ (F.faults files.new ≡ F.faults files.old) }
{
    load_texts(alloc, files, FileNames::asked(request))
}

/// Loads the texts in these files, in their order.
fn load_texts<F: Files>(alloc: Global, files: &mut F, names: FileNames<'_>) -> Result<Texts, Stop>
    ensures texts { IfOk result (λ texts. AreRead (F.told files.old) (text_of texts) (files_named names.entry)) }
    ensures short { IfOk result AreShort }
    ensures stop { IfErr result (IsStopOf (files_named names.entry) (F.told files.old)
        (Rose (F.faults files.old) (F.faults files.new))) }
    ensures loads { FirstOfThem (files_named names.entry) (F.told files.old)
        (F.requested files.old) (F.requested files.new) }
    ensures loaded { OnOk result (AreRequested (map load_of (files_named names.entry))
        (F.requested files.old) (F.requested files.new)) }
    ensures calm { IsErrOf result Stop.Unread ⊎ (F.faults files.new ≡ F.faults files.old) }
{
    let policy = load_named(alloc, files, names.policy, TextKind::Policy)?;
    let trace = load_named(alloc, files, names.trace, TextKind::Trace)?;
    let history = load_named(alloc, files, names.history, TextKind::History)?;
    let certificates = load_named(alloc, files, names.certificates, TextKind::Certificates)?;
    Ok(Texts {
        policy,
        trace,
        history,
        certificates,
    })
}

/// Loads the text in that file, if one is named. Else the text is empty.
fn load_named<F: Files>(
    alloc: Global,
    files: &mut F,
    name: Option<&str>,
    kind: TextKind,
) -> Result<Vec<u8>, Stop>
    ensures text { IfOk result (λ text. AreRead (F.told files.old) (λ which. text.items) (file_named kind name.entry)) }
    ensures short { IfOk result (λ text. length text.items ≤ room_of kind) }
    ensures stop { IfErr result (IsStopOf (file_named kind name.entry) (F.told files.old)
        (Rose (F.faults files.old) (F.faults files.new))) }
    ensures same { (other : List ℕ) → F.told files.new other ≡ F.told files.old other }
    ensures still { OnOk result (F.faults files.new ≡ F.faults files.old) }
    ensures calm { IsErrOf result Stop.Unread ⊎ (F.faults files.new ≡ F.faults files.old) }
    ensures requests { AreRequested (map load_of (file_named kind name.entry))
        (F.requested files.old) (F.requested files.new) }
{
    match name {
        Some(name) => load(alloc, files, name, kind),
        None => Ok(Vec::new(alloc)),
    }
}

/// Loads the text in that file.
fn load<F: Files>(alloc: Global, files: &mut F, name: &str, kind: TextKind) -> Result<Vec<u8>, Stop>
    ensures text { IfOk result (λ text. MayRead kind (F.told files.old name.now) text.items) }
    ensures stop { IfErr result (IsUnloaded kind (F.told files.old name.now)
        (Rose (F.faults files.old) (F.faults files.new))) }
    ensures same { (other : List ℕ) → F.told files.new other ≡ F.told files.old other }
    ensures still { OnOk result (F.faults files.new ≡ F.faults files.old) }
    ensures calm { IsErrOf result Stop.Unread ⊎ (F.faults files.new ≡ F.faults files.old) }
    ensures requests { AreRequested (load_request name.now (room_of kind) ∷ [])
        (F.requested files.old) (F.requested files.new) }
{
    match files.load(alloc, name, kind.room()) {
        Ok(text) => Ok(text),
        Err(LoadFault::Failed) => Err(Stop::Unread),
        Err(LoadFault::TooLong) => Err(Stop::TooLong(kind)),
        Err(LoadFault::Memory) => Err(Stop::Memory),
    }
}
