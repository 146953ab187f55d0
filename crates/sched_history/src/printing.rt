//! How an entry is written.

ghost use Rattle.std.specs.Prelude.{◌≡◌, ◌+◌, ◌≤◌, [], ◌∷◌, ◌++◌, All, codes, length};
ghost use Rattle.round_model.specs.Entries.{reads_of};
ghost use Rattle.sched_io.specs.Puts.{Puts};
ghost use Rattle.sched_history.specs.Ranges.{CanBePrinted, IsCoreCount, IsPrintableFrom};
ghost use Rattle.sched_history.specs.Spelling.{head_of, header, line_from, lines_of_history, reads_from};
ghost use Rattle.sched_history.specs.Spelling.{spaced, spaced_number, words_of_work};

use crate::forms::start_behind;
use round_model::{Did, Entry};
use sched_base::{CoreId, Pos, Reads, Stolen};
use sched_io::{LINE_ROOM, Line, NUMBER_ROOM, PutFault, Sink, put_all};

/// Writes the text of the history in the second format, of a machine of so many cores: the header, and then a line for
/// each entry.
pub fn put_history<S: Sink>(out: &mut S, entries: &[Entry], cores: u32) -> Result<(), PutFault>
    requires { CanBePrinted cores entries.now }
    ensures { Puts (lines_of_history cores entries.now) result (S.shown out.old) (S.shown out.new) }
{
    put_header(out, cores)?;
    let mut start = 0;
    let mut count = 0;
    for entry in entries {
        put_entry(out, entry, start)?;
        count += 1;
        start = start_behind(start, entry, count);
    }
    Ok(())
}

/// Writes the first line of a text of the second format.
pub fn put_header<S: Sink>(out: &mut S, cores: u32) -> Result<(), PutFault>
    requires { IsCoreCount cores }
    ensures { Puts (header cores ∷ []) result (S.shown out.old) (S.shown out.new) }
{
    let mut line = Line::new();
    print_header(&mut line, cores);
    put_all(out, line.as_bytes())
}

/// Writes the line of the entry in the second format, in a round that starts there.
pub fn put_entry<S: Sink>(out: &mut S, entry: &Entry, start: Pos) -> Result<(), PutFault>
    requires { IsPrintableFrom start entry.now }
    ensures { Puts (line_from start entry.now ∷ []) result (S.shown out.old) (S.shown out.new) }
{
    let mut line = Line::new();
    print_entry(&mut line, entry, start);
    put_all(out, line.as_bytes())
}

/// Makes the empty line the first one of a text of the second format, with its line feed.
pub fn print_header(line: &mut Line, cores: u32)
    requires empty { line.old ≡ [] }
    requires cores { IsCoreCount cores }
    ensures { line.new ≡ header cores }
{
    line.add(b"history 2 cores");
    add_spaced(line, cores);
    line.add(b"\n");
}

/// Makes the empty line that of the entry in the second format, with its line feed. Its round starts behind `start`
/// entries.
pub fn print_entry(line: &mut Line, entry: &Entry, start: Pos)
    requires empty { line.old ≡ [] }
    requires printable { IsPrintableFrom start entry.now }
    ensures { line.new ≡ line_from start entry.now }
{
    add_head(line, entry);
    add_reads(line, entry, start);
    line.add(b"\n");
}

/// Adds the words of the entry before its reads.
fn add_head(line: &mut Line, entry: &Entry)
    requires { length line.old + length (head_of entry.now) + NUMBER_ROOM ≤ LINE_ROOM }
    ensures { line.new ≡ line.old ++ head_of entry.now }
{
    match entry {
        Entry::Round { number } => add_numbered(line, b"round", &[*number]),
        Entry::Enter { thread, by, at, .. } => add_numbered(line, b"enter", &[*thread, *by, *at]),
        Entry::Wake { thread, by, at, .. } => add_numbered(line, b"wake", &[*thread, *by, *at]),
        Entry::Work { by, did } => add_work(line, *by, did),
        Entry::Steal {
            by,
            from,
            threads,
            ..
        } => add_stolen(line, *by, *from, threads),
        Entry::Fail { by, from, .. } => add_numbered(line, b"fail", &[*by, *from]),
        Entry::Pass { by, .. } => add_numbered(line, b"pass", &[*by]),
    }
}

/// Adds the words of a unit of work.
fn add_work(line: &mut Line, by: CoreId, did: &Did)
    requires { length line.old + length (words_of_work by did.now) + NUMBER_ROOM ≤ LINE_ROOM }
    ensures { line.new ≡ line.old ++ words_of_work by did.now }
{
    match did {
        Did::Nothing => add_unit(line, &[by], b" -"),
        Did::Kept(thread) => add_unit(line, &[by, *thread], b" keep"),
        Did::Queued(thread) => add_unit(line, &[by, *thread], b" queue"),
        Did::Blocked(thread) => add_unit(line, &[by, *thread], b" block"),
        Did::Ended(thread) => add_unit(line, &[by, *thread], b" end"),
    }
}

/// Adds the words of a unit of work with these numbers and this last word.
fn add_unit(line: &mut Line, numbers: &[u32], last: &[u8])
    requires { length line.old + length (codes "work" ++ spaced numbers.now ++ last.now)
        + NUMBER_ROOM ≤ LINE_ROOM }
    ensures { line.new ≡ line.old ++ codes "work" ++ spaced numbers.now ++ last.now }
{
    add_numbered(line, b"work", numbers);
    line.add(last);
}

/// Adds the first word of a steal, its cores and its threads.
fn add_stolen(line: &mut Line, by: CoreId, from: CoreId, threads: &Stolen)
    requires { length line.old + length (codes "steal" ++ spaced (by ∷ from ∷ threads.now))
        + NUMBER_ROOM ≤ LINE_ROOM }
    ensures { line.new ≡ line.old ++ codes "steal" ++ spaced (by ∷ from ∷ threads.now) }
{
    add_numbered(line, b"steal", &[by, from]);
    add_threads(line, threads);
}

/// Adds the word, and then the numbers.
fn add_numbered(line: &mut Line, first: &[u8], numbers: &[u32])
    requires { length line.old + length (first.now ++ spaced numbers.now) + NUMBER_ROOM ≤ LINE_ROOM }
    ensures { line.new ≡ line.old ++ first.now ++ spaced numbers.now }
{
    line.add(first);
    add_numbers(line, numbers);
}

/// Adds the numbers.
fn add_numbers(line: &mut Line, numbers: &[u32])
    requires { length line.old + length (spaced numbers.now) + NUMBER_ROOM ≤ LINE_ROOM }
    ensures { line.new ≡ line.old ++ spaced numbers.now }
{
    for number in numbers {
        add_spaced(line, *number);
    }
}

/// Adds the threads that a steal moves.
fn add_threads(line: &mut Line, threads: &Stolen)
    requires { length line.old + length (spaced threads.now) + NUMBER_ROOM ≤ LINE_ROOM }
    ensures { line.new ≡ line.old ++ spaced threads.now }
{
    for at in 0..threads.len() {
        add_spaced(line, threads.get(at));
    }
}

/// Adds the reads of the entry. A Round and a unit of work read nothing.
fn add_reads(line: &mut Line, entry: &Entry, start: Pos)
    requires room { length line.old + length (reads_from start (reads_of entry.now)) + NUMBER_ROOM ≤ LINE_ROOM }
    requires start { All (λ position. start ≤ position) (reads_of entry.now) }
    ensures { line.new ≡ line.old ++ reads_from start (reads_of entry.now) }
{
    match entry {
        Entry::Round { .. } | Entry::Work { .. } => {}
        Entry::Enter { reads, .. } | Entry::Wake { reads, .. } => add_distances(line, reads, start),
        Entry::Steal { reads, .. } | Entry::Fail { reads, .. } => add_distances(line, reads, start),
        Entry::Pass { reads, .. } => add_distances(line, reads, start),
    }
}

/// Adds the reads as distances from the start, behind a colon. Where there are none nothing is added.
fn add_distances(line: &mut Line, reads: &Reads, start: Pos)
    requires room { length line.old + length (reads_from start reads.now) + NUMBER_ROOM ≤ LINE_ROOM }
    requires start { All (λ position. start ≤ position) reads.now }
    ensures { line.new ≡ line.old ++ reads_from start reads.now }
{
    if reads.is_empty() {
        return;
    }
    line.add(b" :");
    for at in 0..reads.len() {
        let distance = reads.get(at) - start;
        add_spaced(line, distance);
    }
}

/// Adds one space and the number.
fn add_spaced(line: &mut Line, number: u32)
    requires { length line.old + 1 + NUMBER_ROOM ≤ LINE_ROOM }
    ensures { line.new ≡ line.old ++ spaced_number number }
{
    line.add(b" ");
    line.add_number(u64::from(number));
}
