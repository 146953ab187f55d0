//! A sink in memory, of which chosen puts fail.

ghost use Rattle.std.specs.Prelude.{◌≡◌, ◌≢◌, ◌+◌, ◌^◌, ◌<◌, ◌≤◌, ◌↔◌, [], ◌∷◌, None, Some, IfOk, MatchOption};
ghost use Rattle.std.specs.Prelude.{map, vec_capacity, vec_len};
ghost use Rattle.std.specs.Option.{ForSome};
ghost use Rattle.sched_io.specs.InMemory.{pieces_in};
ghost use Rattle.sched_io.specs.Written.{Grows};

use crate::faults::{IoMemory, PutFault};
use crate::sinks::Sink;
use std::alloc::Global;
use std::mem;

/// A sink in memory with a room that it took when it was made. It tells its bytes.
///
/// One made by `new` takes whole pieces, and tells them as long as there is memory to keep them. One made by `biting`
/// takes no more than a bite of each piece, and doesn't tell what it was offered.
#[derive(Drop)]
pub struct MemorySink {
    alloc: Global,
    bytes: Vec<u8>,
    room: usize,
    bite: usize,
    failing: Vec<u64>,
    offered: Option<Vec<Vec<u8>>>,
    puts: u64,
    faults: u64,
    ghost within: { vec_len bytes ≤ room },
    ghost reserved: { room ≤ vec_capacity bytes },
    ghost takes_some: { 1 ≤ bite },
    ghost takes_all: { ForSome offered (λ kept. 2 ^ 64 ≤ bite + 1) },
}

impl MemorySink {
    ghost use Rattle.sched_io.specs.Sinks.{bite_of, bytes_of, failing_puts_of, offered_to, put_faults_of};
    ghost use Rattle.sched_io.specs.Sinks.{puts_of, room_of};

    /// An empty sink with room for so many bytes, of which the puts with the numbers in `failing` fail. Puts of pieces
    /// that aren't empty have numbers, from 0.
    pub fn new(alloc: Global, room: u64, failing: Vec<u64>) -> Result<MemorySink, IoMemory>
        ensures empty { IfOk result (λ sink. (bytes_of sink ≡ []) × (offered_to sink ≡ Some [])) }
        ensures room { IfOk result (λ sink. room_of sink ≡ room) }
        ensures failing { IfOk result (λ sink. failing_puts_of sink ≡ failing.items) }
        ensures counts { IfOk result (λ sink. (puts_of sink ≡ 0) × (put_faults_of sink ≡ 0)) }
        ensures bite { IfOk result (λ sink. bite_of sink ≡ u64.MAX) }
    {
        let bytes = Vec::with_capacity(alloc, room as usize)?;
        Ok(MemorySink {
            alloc,
            bytes,
            room: room as usize,
            bite: usize::MAX,
            failing,
            offered: Some(Vec::new(alloc)),
            puts: 0,
            faults: 0,
        })
    }

    /// The same, but a put takes at most `bite` bytes of its piece. That it takes fewer than all is no fault.
    pub fn biting(
        alloc: Global,
        room: u64,
        bite: u64,
        failing: Vec<u64>,
    ) -> Result<MemorySink, IoMemory>
        requires { 1 ≤ bite }
        ensures empty { IfOk result (λ sink. (bytes_of sink ≡ []) × (offered_to sink ≡ None)) }
        ensures room { IfOk result (λ sink. room_of sink ≡ room) }
        ensures bite { IfOk result (λ sink. bite_of sink ≡ bite) }
        ensures failing { IfOk result (λ sink. failing_puts_of sink ≡ failing.items) }
        ensures counts { IfOk result (λ sink. (puts_of sink ≡ 0) × (put_faults_of sink ≡ 0)) }
    {
        let bytes = Vec::with_capacity(alloc, room as usize)?;
        Ok(MemorySink {
            alloc,
            bytes,
            room: room as usize,
            bite: bite as usize,
            failing,
            offered: None,
            puts: 0,
            faults: 0,
        })
    }

    /// The bytes that were written.
    pub fn bytes(&self) -> &[u8]
        ensures { result.now ≡ bytes_of self.now }
    {
        self.bytes.as_slice()
    }

    /// The pieces that it was offered, as long as there was memory to keep them.
    pub fn offered(&self) -> Option<&[Vec<u8>]>
        ensures { MatchOption result (offered_to self.now ≡ None)
            (λ kept. offered_to self.now ≡ Some (map (λ piece. piece.items) kept.now)) }
    {
        match &self.offered {
            Some(kept) => Some(kept.as_slice()),
            None => None,
        }
    }
}

/// The pieces that were kept, with one more. Nothing, where there is no memory for it.
fn with_piece(alloc: Global, kept: Option<Vec<Vec<u8>>>, piece: &[u8]) -> Option<Vec<Vec<u8>>>
    ensures { Grows (piece.now ∷ []) (pieces_in kept) (pieces_in result) }
{
    let mut kept = kept?;
    let piece = Vec::from_slice(alloc, piece).ok()?;
    kept.push(piece).ok()?;
    Some(kept)
}

impl Sink for MemorySink {
    ghost use Rattle.std.specs.Prelude.{◌≡◌, ◌≢◌, ◌+◌, ◌↔◌, [], IfOk, IsErr, OnErr, length, min};
    ghost use Rattle.sched_io.specs.Shown.{Refuses, Takes};
    ghost use Rattle.sched_io.specs.Sinks.{FailsNext, bite_of, failing_puts_of, puts_of, room_of, shown_by_memory};

    ghost shown = { shown_by_memory };

    fn put(&mut self, piece: &[u8]) -> Result<u64, PutFault>
        ensures takes { IfOk result (λ count. Takes piece.now count (shown_by_memory self.old)
            (shown_by_memory self.new)) }
        ensures refuses { OnErr result (Refuses piece.now (shown_by_memory self.old) (shown_by_memory self.new)) }

        ensures whole { IfOk result (λ count. count ≡ min (bite_of self.old) (length piece.now)) }
        ensures chosen { IsErr result ↔ FailsNext self.old piece.now }
        ensures same { (room_of self.new ≡ room_of self.old) × (failing_puts_of self.new ≡ failing_puts_of self.old)
            × (bite_of self.new ≡ bite_of self.old) }
        ensures puts { piece.now ≢ [] → puts_of self.new ≡ min (puts_of self.old + 1) u64.MAX }
        ensures no_put { piece.now ≡ [] → puts_of self.new ≡ puts_of self.old }
    {
        self.offered = with_piece(self.alloc, mem::take(&mut self.offered), piece);
        if piece.is_empty() {
            return Ok(0);
        }
        let fails = self.failing.contains(&self.puts);
        self.puts = self.puts.saturating_add(1);
        let count = piece.len().min(self.bite);
        let left = self.room - self.bytes.len();
        if fails || left < count {
            self.faults = self.faults.saturating_add(1);
            return Err(PutFault::Failed);
        }
        self.bytes.extend_from_slice(&piece[..count]).unwrap();
        Ok(count as u64)
    }
}
