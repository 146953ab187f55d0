//! What files and sinks in memory keep of the calls that they get, and how readers and writers are used.

use crate::one_steal;
use ipanema_cli::ipanema;
use sched_io::{
    Files, IoMemory, LoadFault, MemoryFiles, MemorySink, OpenGate, SteadySink, WriterSink,
    load_from, put_all,
};
use std::alloc::{AllocError, Global};
use std::sync::Wait;
use std::thread::Threads;

/// Whether files keep which loads were requested, and a sink which pieces it was offered, also where they fail.
pub(crate) fn loads_and_pieces_are_kept(alloc: Global) -> Result<bool, AllocError> {
    Ok(loads_are_kept(alloc) && pieces_are_kept(alloc)?)
}

/// Whether a load of a name that no file has is kept.
fn loads_are_kept(alloc: Global) -> bool {
    let mut files = MemoryFiles::new(alloc, Vec::new(alloc), Vec::new(alloc));
    let failed = files.load(alloc, "p", 9).is_err();
    match files.requested() {
        Some([(name, limit)]) => failed && name.as_str() == "p" && *limit == 9,
        _ => false,
    }
}

/// Whether a piece that fits and one that doesn't are kept.
fn pieces_are_kept(alloc: Global) -> Result<bool, AllocError> {
    let mut out = MemorySink::new(alloc, 3, Vec::new(alloc)).map_err(
        |_error: IoMemory| AllocError,
    )?;
    let fits = put_all(&mut out, b"abc").is_ok();
    let fails = put_all(&mut out, b"d").is_err();
    match out.offered() {
        Some([first, second]) => {
            Ok(
                fits && fails
                    && first.as_slice() == b"abc".as_slice()
                    && second.as_slice() == b"d".as_slice(),
            )
        }
        _ => Ok(false),
    }
}

/// Whether a reader is read up to its limit, and a writer written up to its end.
pub(crate) fn readers_and_writers(alloc: Global) -> bool {
    [7, 8, u64::MAX]
        .iter()
        .all(|limit| is_loaded(alloc, *limit))
        && [0, 6].iter().all(|limit| is_too_long(alloc, *limit))
        && is_written()
}

/// What a reader has.
const TEXT: &[u8] = b"cores 1";

/// Whether the text is loaded under that limit.
fn is_loaded(alloc: Global, limit: u64) -> bool {
    match load_from(alloc, TEXT, limit) {
        Ok(bytes) => bytes.as_slice() == TEXT,
        Err(_fault) => false,
    }
}

/// Whether the text is too long for that limit.
fn is_too_long(alloc: Global, limit: u64) -> bool {
    matches!(load_from(alloc, TEXT, limit), Err(LoadFault::TooLong))
}

/// Whether of two pieces a writer with too little room gets the first whole, and a part of the second.
fn is_written() -> bool {
    let mut room = [0; 5];
    let mut out = WriterSink::new(room.as_mut_slice());
    let fits = put_all(&mut out, b"abc").is_ok();
    let fails = put_all(&mut out, b"def").is_err();
    drop(out);
    fits && fails && room.as_slice() == b"abcde".as_slice()
}

/// Whether a sink that never fails gets the history of `play`.
pub(crate) fn steady_sink<R: Threads + Wait + Sync>(
    rt: &R,
    alloc: Global,
) -> Result<bool, AllocError> {
    let words = one_steal::words(alloc, &["play", "p", "t"])?;
    let mut files = one_steal::files(alloc, one_steal::TRACE)?;
    let mut out = SteadySink::with_room(alloc, 4_096).map_err(|_error: IoMemory| AllocError)?;
    let status = ipanema(rt, alloc, &words, &mut files, &mut out, &OpenGate);
    Ok(status == 0 && out.bytes() == one_steal::HISTORY.as_bytes())
}
