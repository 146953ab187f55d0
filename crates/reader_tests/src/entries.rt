//! Entries by their numbers, and whether those are in their ranges.

ghost use Rattle.std.specs.Prelude.{◌≡◌, ◌⊎◌, ◌<◌, ◌≤◌, [], All, IsTrue, length};
ghost use Rattle.sched_history.specs.declared.forms.LineForm.TheVariants as forms;
ghost use Rattle.sched_history.specs.Lines.{entry_lines};
ghost use Rattle.sched_history.specs.Ranges.{AreOneEach, AreStolen, CanBePrinted, IsCoreCount, IsPositionFrom};
ghost use Rattle.sched_history.specs.Ranges.{IsPrintable, IsPrintableLine, IsThreadNumber, NamesThread};
ghost use Rattle.sched_history.specs.Spelling.{second_form};

use round_model::{Did, Entry};
use sched_base::{MAX_CORES, MAX_ENTRIES, MAX_ROUNDS, MAX_STOLEN, MAX_THREADS, Pos, Reads, Stolen};
use sched_history::start_behind;

/// These positions.
fn reads_at(positions: &[u32]) -> Reads
    requires { length positions.now ≤ MAX_CORES }
{
    let mut reads = Reads::empty();
    for position in positions {
        reads.push(*position);
    }
    reads
}

/// These threads.
fn stolen(numbers: &[u32]) -> Stolen
    requires { length numbers.now ≤ MAX_STOLEN }
{
    let mut threads = Stolen::empty();
    for number in numbers {
        threads.push(*number);
    }
    threads
}

pub(crate) fn round(number: u32) -> Entry {
    Entry::Round { number }
}

pub(crate) fn enter(thread: u32, by: u32, at: u32, positions: &[u32]) -> Entry
    requires { length positions.now ≤ MAX_CORES }
{
    Entry::Enter {
        thread,
        by,
        at,
        reads: reads_at(positions),
    }
}

pub(crate) fn wake(thread: u32, by: u32, at: u32, positions: &[u32]) -> Entry
    requires { length positions.now ≤ MAX_CORES }
{
    Entry::Wake {
        thread,
        by,
        at,
        reads: reads_at(positions),
    }
}

pub(crate) fn work(by: u32, did: Did) -> Entry {
    Entry::Work { by, did }
}

pub(crate) fn steal(by: u32, from: u32, threads: &[u32], positions: &[u32]) -> Entry
    requires threads { length threads.now ≤ MAX_STOLEN }
    requires positions { length positions.now ≤ MAX_CORES }
{
    Entry::Steal {
        by,
        from,
        threads: stolen(threads),
        reads: reads_at(positions),
    }
}

pub(crate) fn fail(by: u32, from: u32, positions: &[u32]) -> Entry
    requires { length positions.now ≤ MAX_CORES }
{
    Entry::Fail {
        by,
        from,
        reads: reads_at(positions),
    }
}

pub(crate) fn pass(by: u32, positions: &[u32]) -> Entry
    requires { length positions.now ≤ MAX_CORES }
{
    Entry::Pass {
        by,
        reads: reads_at(positions),
    }
}

/// Whether the entries have a text of the second format, of so many cores.
pub(crate) fn are_printable(entries: &[Entry], cores: u32) -> bool
    ensures { IsTrue result → CanBePrinted cores entries.now }
{
    is_core_count(cores) && entries.len() <= MAX_ENTRIES as usize && have_lines(entries, cores)
}

fn is_core_count(cores: u32) -> bool
    ensures { IsTrue result → IsCoreCount cores }
{
    1 <= cores && cores as usize <= MAX_CORES
}

/// Whether each of the entries has a line.
fn have_lines(entries: &[Entry], cores: u32) -> bool
    requires cores { IsCoreCount cores }
    requires few { length entries.now ≤ MAX_ENTRIES }
    ensures { IsTrue result → All IsPrintableLine (entry_lines 0 (second_form cores) entries.now) }
{
    let mut start = 0;
    let mut count = 0;
    for entry in entries {
        if !is_printable(entry, cores, start) {
            return false;
        }
        count += 1;
        start = start_behind(start, entry, count);
    }
    true
}

fn is_printable(entry: &Entry, cores: u32, start: Pos) -> bool
    requires { IsCoreCount cores }
    ensures { IsTrue result → IsPrintable (forms.Second cores start) entry.now }
{
    match entry {
        Entry::Round { number } => 1 <= *number && *number <= MAX_ROUNDS,
        Entry::Enter {
            thread,
            by,
            at,
            reads,
        }
        | Entry::Wake {
            thread,
            by,
            at,
            reads,
        } => {
            is_thread(*thread)
                && is_core(*by)
                && is_core(*at)
                && are_placement_reads(reads, cores, start)
        }
        Entry::Work { by, did } => is_core(*by) && names_thread(did),
        Entry::Steal {
            by,
            from,
            threads,
            reads,
        } => {
            is_core(*by) && is_core(*from) && are_stolen(threads) && are_reads(reads, cores, start)
        }
        Entry::Fail { by, from, reads } => {
            is_core(*by) && is_core(*from) && are_reads(reads, cores, start)
        }
        Entry::Pass { by, reads } => is_core(*by) && are_reads(reads, cores, start),
    }
}

fn names_thread(did: &Did) -> bool
    ensures { IsTrue result → NamesThread did.now }
{
    match did {
        Did::Nothing => true,
        Did::Kept(thread) | Did::Queued(thread) => is_thread(*thread),
        Did::Blocked(thread) | Did::Ended(thread) => is_thread(*thread),
    }
}

fn is_thread(thread: u32) -> bool
    ensures { IsTrue result → IsThreadNumber thread }
{
    1 <= thread && thread <= MAX_THREADS
}

fn are_stolen(threads: &Stolen) -> bool
    ensures { IsTrue result → AreStolen threads.now }
{
    threads.len() > 0 && are_threads(threads)
}

fn are_threads(threads: &Stolen) -> bool
    ensures { IsTrue result → All IsThreadNumber threads.now }
{
    for at in 0..threads.len() {
        if !is_thread(threads.get(at)) {
            return false;
        }
    }
    true
}

fn is_core(core: u32) -> bool
    ensures { IsTrue result → core < MAX_CORES }
{
    (core as usize) < MAX_CORES
}

fn are_placement_reads(reads: &Reads, cores: u32, start: Pos) -> bool
    requires { IsCoreCount cores }
    ensures { IsTrue result → (reads.now ≡ []) ⊎ AreOneEach cores start reads.now }
{
    reads.is_empty() || are_reads(reads, cores, start)
}

fn are_reads(reads: &Reads, cores: u32, start: Pos) -> bool
    requires { IsCoreCount cores }
    ensures { IsTrue result → AreOneEach cores start reads.now }
{
    reads.len() == cores && are_positions(reads, start)
}

fn are_positions(reads: &Reads, start: Pos) -> bool
    ensures { IsTrue result → All (IsPositionFrom start) reads.now }
{
    for at in 0..reads.len() {
        let position = reads.get(at);
        if position < start || position > MAX_ENTRIES {
            return false;
        }
    }
    true
}
