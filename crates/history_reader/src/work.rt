//! Reads what stands behind the first word of a unit of work.

ghost use Rattle.std.specs.Prelude.{◌++◌, MatchOption};
ghost use Rattle.text_forms.specs.Cuts.{StartsWith};
ghost use Rattle.round_model.specs.declared.entry.Did.{Did};
ghost use Rattle.sched_history.specs.Ranges.{IsThreadNumber};
ghost use Rattle.sched_history.specs.Spelling.{spaced_number};
ghost use Rattle.history_reader.specs.Code.Kinds.{IsNoRestOf, IsRestOf, IsRestOfDid};
ghost use Rattle.history_reader.specs.declared.line.Kind.TheVariants as kinds;

use crate::numbers::{core_at, thread_at};
use round_model::{Did, Entry};
use sched_base::ThreadId;
use sched_history::LineForm;

/// The unit behind whose first word the text stands.
pub fn work_in(text: &[u8], form: LineForm) -> Option<Entry>
    ensures { MatchOption result
        (IsNoRestOf form kinds.Work text.now)
        (λ entry. IsRestOf form kinds.Work text.now entry) }
{
    let (by, rest) = core_at(text, form)?;
    let did = did_in(rest)?;
    Some(Entry::Work { by, did })
}

/// What became of the current thread, where the text says it.
fn did_in(text: &[u8]) -> Option<Did>
    ensures { MatchOption result
        ((what : Did) → IsRestOfDid text.now what → ⊥)
        (λ what. IsRestOfDid text.now what) }
{
    if text == b" -".as_slice() {
        return Some(Did::Nothing);
    }
    let (thread, rest) = thread_at(text)?;
    fate_in(thread, rest)
}

/// What became of the thread, where the text says it.
fn fate_in(thread: ThreadId, text: &[u8]) -> Option<Did>
    requires thread { IsThreadNumber thread }
    requires space { StartsWith 32 text.now }
    ensures { MatchOption result
        ((what : Did) → IsRestOfDid (spaced_number thread ++ text.now) what → ⊥)
        (λ what. IsRestOfDid (spaced_number thread ++ text.now) what) }
{
    if text == b" keep".as_slice() {
        Some(Did::Kept(thread))
    } else if text == b" queue".as_slice() {
        Some(Did::Queued(thread))
    } else if text == b" block".as_slice() {
        Some(Did::Blocked(thread))
    } else if text == b" end".as_slice() {
        Some(Did::Ended(thread))
    } else {
        None
    }
}
