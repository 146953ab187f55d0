//! Who doesn't run.

ghost use Rattle.std.specs.Prelude.{◌≡◌, find, not, option_map};
ghost use Rattle.std.specs.List.{list_any};
ghost use Rattle.sched_base.specs.declared.task.Task.{Task};
ghost use Rattle.waiting_laws.specs.Waiting.{thread_of};
ghost use Rattle.starving_plays.specs.Starving.{first_hungry, is_hungry, is_that_thread, runs};

use round_model::{Did, Entry};
use sched_base::{Task, ThreadId};

/// The first of these threads that runs in none of the entries.
pub(crate) fn first_hungry(queue: &[Task], entries: &[Entry]) -> Option<ThreadId>
    ensures { result ≡ first_hungry queue.now entries.now }
{
    match first_hungry_task(queue, entries) {
        Some(task) => Some(task.id),
        None => None,
    }
}

/// The first of these tasks whose thread runs in none of the entries.
fn first_hungry_task<'a>(queue: &'a [Task], entries: &[Entry]) -> Option<&'a Task>
    ensures { option_map (λ task. task.now) result ≡ find (is_hungry entries.now) queue.now }
{
    queue.iter().find(|task| is_hungry(task, entries))
}

/// Whether the thread runs in none of the entries.
fn is_hungry(task: &Task, entries: &[Entry]) -> bool
    ensures { result ≡ is_hungry entries.now task.now }
{
    !runs_in(task.id, entries)
}

/// Whether the thread runs in one of the entries.
fn runs_in(thread: ThreadId, entries: &[Entry]) -> bool
    ensures { result ≡ list_any (runs thread) entries.now }
{
    entries.iter().any(|entry| runs(thread, entry))
}

/// Whether core 0 runs a unit of the thread in the entry.
fn runs(thread: ThreadId, entry: &Entry) -> bool
    ensures { result ≡ runs thread entry.now }
{
    match entry {
        Entry::Work { by, did } => *by == 0 && is_that_thread(thread, thread_of(*did)),
        Entry::Round { .. } | Entry::Enter { .. } | Entry::Wake { .. } => false,
        Entry::Steal { .. } | Entry::Fail { .. } | Entry::Pass { .. } => false,
    }
}

/// Whether it is that thread.
fn is_that_thread(thread: ThreadId, found: Option<ThreadId>) -> bool
    ensures { result ≡ is_that_thread thread found }
{
    match found {
        Some(found) => found == thread,
        None => false,
    }
}

/// The thread that ran, by the word for a unit.
fn thread_of(did: Did) -> Option<ThreadId>
    ensures { result ≡ thread_of did }
{
    match did {
        Did::Nothing => None,
        Did::Kept(thread) | Did::Queued(thread) => Some(thread),
        Did::Blocked(thread) | Did::Ended(thread) => Some(thread),
    }
}
