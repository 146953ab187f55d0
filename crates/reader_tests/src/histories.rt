//! Histories that are read and written again, and whether entries are written as a text.

use crate::entries::are_printable;
use history_reader::{HistoryFault, read_history};
use round_model::Entry;
use sched_history::put_history;
use sched_io::{IoMemory, MemorySink};
use std::alloc::{AllocError, Global};

/// The room of a sink, in bytes.
const ROOM: u64 = 1_048_576;

/// How many entries of the text of so many cores are read, where a text of the second format is what is written of them
/// again. Else its first bad line.
pub(crate) fn written_again(alloc: Global, text: &[u8], cores: u32) -> Result<String, AllocError> {
    match read_history(alloc, text, cores) {
        Ok(history) => read_answer(alloc, history.as_slice(), text, cores),
        Err(HistoryFault::BadLine(line)) => format!(in alloc; "bad-line {line}"),
        Err(HistoryFault::Memory) => Err(AllocError),
    }
}

/// How many entries there are, where they are written as this text or it is of the first format.
fn read_answer(
    alloc: Global,
    entries: &[Entry],
    text: &[u8],
    cores: u32,
) -> Result<String, AllocError> {
    if !text.starts_with(b"history") || is_written(alloc, entries, text, cores)? {
        format!(in alloc; "read {}", entries.len())
    } else {
        String::from_str(alloc, "another text")
    }
}

/// Whether the entries are written as this text.
pub(crate) fn is_written(
    alloc: Global,
    entries: &[Entry],
    text: &[u8],
    cores: u32,
) -> Result<bool, AllocError> {
    let mut out = sink(alloc, Vec::new(alloc))?;
    let whole = are_printable(entries, cores) && put_history(&mut out, entries, cores).is_ok();
    Ok(whole && out.bytes() == text)
}

/// Whether no more than this text of the entries is written, where the third put fails.
pub(crate) fn is_cut_short(
    alloc: Global,
    entries: &[Entry],
    text: &[u8],
    cores: u32,
) -> Result<bool, AllocError> {
    let mut out = sink(alloc, vec![in alloc; 2]?)?;
    let cut_short = are_printable(entries, cores) && put_history(&mut out, entries, cores).is_err();
    Ok(cut_short && out.bytes() == text)
}

/// A sink of which these puts fail, from 0.
fn sink(alloc: Global, failing: Vec<u64>) -> Result<MemorySink, AllocError> {
    MemorySink::new(alloc, ROOM, failing).map_err(|_error: IoMemory| AllocError)
}
