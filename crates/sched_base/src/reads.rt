//! The positions at which an entry's reads were made.

ghost use Rattle.std.specs.Prelude.{◌≡◌, ◌<◌, ◌≤◌, [], ◌∷◌, ◌++◌, ◌↔◌, IsTrue, Some, length, slice_get, slice_index};

use crate::limits::MAX_CORES;
use crate::task::Pos;
use std::marker::Model;

/// Of each core from core 0 on, the position at which it was read: at most `MAX_CORES` of them.
///
/// A contract sees the list. The places of `at` past its length are 0, so that the list gives the
/// fields back. Other crates ask `len` and `get`, and leave the fields alone.
#[derive(Clone, Copy)]
pub struct Reads {
    pub len: u32,
    pub at: [u32; MAX_CORES],
}

impl Model for Reads {
    ghost use Rattle.std.specs.Prelude.{◌≡◌, ℕ, List, length, take};
    ghost use Rattle.sched_base.specs.declared.limits.TheConstants.{MAX_CORES};
    ghost use Rattle.sched_base.specs.Padded.{IsPadded, padded, padded-length, padded-array};

    ghost Value = { List ℕ };

    ghost view = { λ reads. take reads.len reads.at };

    ghost invariant = { λ reads. IsPadded MAX_CORES reads.len reads.at };

    ghost inverse = { λ list. record { len = length list; at = padded MAX_CORES list } };

    ghost inverse_ok = { λ reads is i. record {
      len = padded-length MAX_CORES reads.len reads.at is i;
      at = padded-array MAX_CORES reads.len reads.at is i;
    } };
}

impl Reads {
    /// The list of no position.
    pub fn empty() -> Reads
        ensures { result ≡ [] }
    {
        Reads {
            len: 0,
            at: [0; MAX_CORES],
        }
    }

    /// One position more, at the end.
    pub fn push(&mut self, position: Pos)
        requires { length self.old < MAX_CORES }
        ensures { self.new ≡ self.old ++ position ∷ [] }
    {
        self.at[self.len as usize] = position;
        self.len += 1;
    }

    /// The number of positions, at most `MAX_CORES`.
    pub fn len(&self) -> u32
        ensures len { result ≡ length self.now }
        ensures few { result ≤ MAX_CORES }
    {
        self.len
    }

    /// Whether there is no position.
    pub fn is_empty(&self) -> bool
        ensures { IsTrue result ↔ (self.now ≡ []) }
    {
        self.len == 0
    }

    /// The position in that place, from 0.
    pub fn get(&self, at: u32) -> Pos
        requires { at < length self.now }
        ensures item { slice_get self.now at ≡ Some result }
        ensures value { result ≡ slice_index self.now at }
    {
        self.at[at as usize]
    }
}
