//! Reads what stands behind the first word of an entry.

ghost use Rattle.std.specs.Prelude.{ℕ, List, MatchOption};
ghost use Rattle.round_model.specs.declared.entry.Entry.TheVariants as entries;
ghost use Rattle.history_reader.specs.Code.Kinds.{IsNoRestOf, IsRest, IsRestOf, IsRightForm};
ghost use Rattle.history_reader.specs.declared.line.Kind.TheVariants as kinds;

use crate::numbers::{core_at, round_at, thread_at, threads_at};
use crate::reads::{placement_reads_in, reads_in};
use round_model::Entry;
use sched_base::{CoreId, Reads, ThreadId};
use sched_history::LineForm;

/// The beginning round behind whose first word the text stands.
pub fn round_in(text: &[u8], form: LineForm) -> Option<Entry>
    ensures { MatchOption result
        (IsNoRestOf form kinds.Round text.now)
        (λ entry. IsRestOf form kinds.Round text.now entry) }
{
    let (number, rest) = round_at(text)?;
    if rest.is_empty() {
        Some(Entry::Round { number })
    } else {
        None
    }
}

/// The entering behind whose first word the text stands.
pub fn enter_in(text: &[u8], form: LineForm) -> Option<Entry>
    requires { IsRightForm form }
    ensures { MatchOption result
        (IsNoRestOf form kinds.Enter text.now)
        (λ entry. IsRestOf form kinds.Enter text.now entry) }
{
    let (thread, by, at, reads) = placed_thread(text, form)?;
    Some(Entry::Enter {
        thread,
        by,
        at,
        reads,
    })
}

/// The waking behind whose first word the text stands.
pub fn wake_in(text: &[u8], form: LineForm) -> Option<Entry>
    requires { IsRightForm form }
    ensures { MatchOption result
        (IsNoRestOf form kinds.Wake text.now)
        (λ entry. IsRestOf form kinds.Wake text.now entry) }
{
    let (thread, by, at, reads) = placed_thread(text, form)?;
    Some(Entry::Wake {
        thread,
        by,
        at,
        reads,
    })
}

/// The steal behind whose first word the text stands.
pub fn steal_in(text: &[u8], form: LineForm) -> Option<Entry>
    requires { IsRightForm form }
    ensures { MatchOption result
        (IsNoRestOf form kinds.Steal text.now)
        (λ entry. IsRestOf form kinds.Steal text.now entry) }
{
    let (by, rest) = core_at(text, form)?;
    let (from, rest) = core_at(rest, form)?;
    let (threads, rest) = threads_at(rest);
    if threads.is_empty() {
        return None;
    }
    let reads = reads_in(rest, form)?;
    Some(Entry::Steal {
        by,
        from,
        threads,
        reads,
    })
}

/// The failed attempt behind whose first word the text stands.
pub fn fail_in(text: &[u8], form: LineForm) -> Option<Entry>
    requires { IsRightForm form }
    ensures { MatchOption result
        (IsNoRestOf form kinds.Fail text.now)
        (λ entry. IsRestOf form kinds.Fail text.now entry) }
{
    let (by, from, reads) = two_cores(text, form)?;
    Some(Entry::Fail { by, from, reads })
}

/// The attempt without a choice behind whose first word the text stands.
pub fn pass_in(text: &[u8], form: LineForm) -> Option<Entry>
    requires { IsRightForm form }
    ensures { MatchOption result
        (IsNoRestOf form kinds.Pass text.now)
        (λ entry. IsRestOf form kinds.Pass text.now entry) }
{
    let (by, reads) = one_core(text, form)?;
    Some(Entry::Pass { by, reads })
}

/// A thread, two cores, and the reads by which it was placed.
fn placed_thread(text: &[u8], form: LineForm) -> Option<(ThreadId, CoreId, CoreId, Reads)>
    requires { IsRightForm form }
    ensures { MatchOption result
        ((thread by at : ℕ) (reads : List ℕ) → IsRest form text.now (entries.Enter thread by at reads) → ⊥)
        (λ found. IsRest form text.now (entries.Enter found.0 found.1 found.2 found.3)) }
{
    let (thread, rest) = thread_at(text)?;
    let (by, rest) = core_at(rest, form)?;
    let (at, rest) = core_at(rest, form)?;
    let reads = placement_reads_in(rest, form)?;
    Some((thread, by, at, reads))
}

/// Two cores and the reads.
fn two_cores(text: &[u8], form: LineForm) -> Option<(CoreId, CoreId, Reads)>
    requires { IsRightForm form }
    ensures { MatchOption result
        ((by from : ℕ) (reads : List ℕ) → IsRest form text.now (entries.Fail by from reads) → ⊥)
        (λ found. IsRest form text.now (entries.Fail found.0 found.1 found.2)) }
{
    let (by, rest) = core_at(text, form)?;
    let (from, reads) = one_core(rest, form)?;
    Some((by, from, reads))
}

/// A core and the reads.
fn one_core(text: &[u8], form: LineForm) -> Option<(CoreId, Reads)>
    requires { IsRightForm form }
    ensures { MatchOption result
        ((by : ℕ) (reads : List ℕ) → IsRest form text.now (entries.Pass by reads) → ⊥)
        (λ found. IsRest form text.now (entries.Pass found.0 found.1)) }
{
    let (by, rest) = core_at(text, form)?;
    let reads = reads_in(rest, form)?;
    Some((by, reads))
}
