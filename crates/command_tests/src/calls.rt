//! How the program is called: over files and a sink in memory.

ghost use Rattle.std.specs.Prelude.{ℕ, IsTrue};

use ipanema_cli::ipanema;
use sched_io::{Gate, IoMemory, MemoryFiles, MemorySink, OpenGate};
use std::alloc::{AllocError, Global};
use std::sync::Wait;
use std::thread::Threads;

/// The room of a sink, in bytes.
const ROOM: u64 = 33_554_432;

/// What a call answered.
#[derive(Drop)]
pub(crate) struct Answer {
    /// Its status.
    pub(crate) status: u8,
    /// What it wrote.
    pub(crate) bytes: Vec<u8>,
}

/// A call with these words over files and a sink.
pub(crate) fn call<R: Threads + Wait + Sync>(
    rt: &R,
    alloc: Global,
    words: &Vec<String>,
    files: MemoryFiles,
    sink: MemorySink,
) -> Result<Answer, AllocError> {
    call_past(rt, alloc, words, files, sink, &OpenGate)
}

/// The same, where cores that play side by side pass this gate.
pub(crate) fn call_past<R: Threads + Wait + Sync, G: Gate + Sync>(
    rt: &R,
    alloc: Global,
    words: &Vec<String>,
    files: MemoryFiles,
    sink: MemorySink,
    gate: &G,
) -> Result<Answer, AllocError>
    requires { (c r : ℕ) → IsTrue (G.admits gate.now c r) }
{
    let mut files = files;
    let mut sink = sink;
    let status = ipanema(rt, alloc, words, &mut files, &mut sink, gate);
    let bytes = Vec::from_slice(alloc, sink.bytes())?;
    Ok(Answer { status, bytes })
}

/// A sink, of which these puts fail. Where there is a bite, a put takes no more bytes than that.
pub(crate) fn sink(
    alloc: Global,
    bite: Option<u64>,
    puts: Vec<u64>,
) -> Result<MemorySink, AllocError> {
    let sink = match bite {
        Some(bite) if bite > 0 => MemorySink::biting(alloc, ROOM, bite, puts),
        _ => MemorySink::new(alloc, ROOM, puts),
    };
    sink.map_err(|_error: IoMemory| AllocError)
}
