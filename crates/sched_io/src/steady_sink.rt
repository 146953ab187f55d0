//! A sink in memory that never fails.

ghost use Rattle.std.specs.Prelude.{◌≡◌, ◌≤◌, [], IfOk, vec_len, vec_capacity};

use crate::faults::{IoMemory, PutFault};
use crate::sinks::Sink;
use std::alloc::Global;

/// A sink in memory that never fails. Once its room is used up it accepts bytes without keeping them, and from then on
/// it doesn't tell what it was given.
#[derive(Drop)]
pub struct SteadySink {
    bytes: Vec<u8>,
    room: usize,
    overflowed: bool,
    ghost within: { vec_len bytes ≤ room },
    ghost reserved: { room ≤ vec_capacity bytes },
}

impl SteadySink {
    ghost use Rattle.std.specs.Prelude.{Some};
    ghost use Rattle.sched_io.specs.Sinks.{kept_by, steady_room_of, told_by_steady};

    /// An empty sink with room for so many bytes.
    pub fn with_room(alloc: Global, room: u64) -> Result<SteadySink, IoMemory>
        ensures told { IfOk result (λ sink. told_by_steady sink ≡ Some []) }
        ensures empty { IfOk result (λ sink. kept_by sink ≡ []) }
        ensures room { IfOk result (λ sink. steady_room_of sink ≡ room) }
    {
        let bytes = Vec::with_capacity(alloc, room as usize)?;
        Ok(SteadySink {
            bytes,
            room: room as usize,
            overflowed: false,
        })
    }

    /// The bytes that were kept.
    pub fn bytes(&self) -> &[u8]
        ensures { result.now ≡ kept_by self.now }
    {
        self.bytes.as_slice()
    }
}

impl Sink for SteadySink {
    ghost use Rattle.std.specs.Prelude.{◌≡◌, ◌+◌, ◌++◌, ◌≤◌, Some, IfOk, IsOk, OnErr, length, take};
    ghost use Rattle.sched_io.specs.Shown.{Refuses, Takes};
    ghost use Rattle.sched_io.specs.Sinks.{kept_by, shown_by_steady, steady_room_of, told_by_steady};

    ghost shown = { shown_by_steady };

    fn put(&mut self, piece: &[u8]) -> Result<u64, PutFault>
        ensures takes { IfOk result (λ count. Takes piece.now count (shown_by_steady self.old)
            (shown_by_steady self.new)) }
        ensures refuses { OnErr result (Refuses piece.now (shown_by_steady self.old) (shown_by_steady self.new)) }

        ensures never { IsOk result }
        ensures tells { length (kept_by self.old) + length piece.now ≤ steady_room_of self.old →
            told_by_steady self.old ≡ Some (kept_by self.old) → told_by_steady self.new ≡ Some (kept_by self.new) }
        ensures whole { IfOk result (λ count. count ≡ length piece.now) }
        ensures kept { kept_by self.new ≡ take (steady_room_of self.old) (kept_by self.old ++ piece.now) }
        ensures same { steady_room_of self.new ≡ steady_room_of self.old }
    {
        let left = self.room - self.bytes.len();
        let kept = left.min(piece.len());
        let (front, _) = piece.split_at(kept);
        self.bytes.extend_from_slice(front).unwrap();
        self.overflowed = self.overflowed || kept < piece.len();
        Ok(piece.len() as u64)
    }
}
