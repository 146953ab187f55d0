//! The threads that one steal moves.

ghost use Rattle.std.specs.Prelude.{◌≡◌, ◌<◌, ◌≤◌, [], ◌∷◌, ◌++◌, ◌↔◌, IsTrue, Some, length, slice_get, slice_index};

use crate::limits::MAX_STOLEN;
use crate::task::ThreadId;
use std::marker::Model;

/// The numbers of the threads that one steal moves, in their order: at most `MAX_STOLEN` of them.
///
/// A contract sees the list. The places of `ids` past its length are 0, so that the list gives the
/// fields back. Other crates ask `len` and `get`, and leave the fields alone.
#[derive(Clone, Copy, PartialEq, Eq)]
pub struct Stolen {
    pub len: u32,
    pub ids: [u32; MAX_STOLEN],
}

impl Model for Stolen {
    ghost use Rattle.std.specs.Prelude.{◌≡◌, ℕ, List, length, take};
    ghost use Rattle.sched_base.specs.declared.limits.TheConstants.{MAX_STOLEN};
    ghost use Rattle.sched_base.specs.Padded.{IsPadded, padded, padded-length, padded-array};

    ghost Value = { List ℕ };

    ghost view = { λ stolen. take stolen.len stolen.ids };

    ghost invariant = { λ stolen. IsPadded MAX_STOLEN stolen.len stolen.ids };

    ghost inverse = { λ list. record { len = length list; ids = padded MAX_STOLEN list } };

    ghost inverse_ok = { λ stolen is i. record {
      len = padded-length MAX_STOLEN stolen.len stolen.ids is i;
      ids = padded-array MAX_STOLEN stolen.len stolen.ids is i;
    } };
}

impl Stolen {
    /// The list of no thread.
    pub fn empty() -> Stolen
        ensures { result ≡ [] }
    {
        Stolen {
            len: 0,
            ids: [0; MAX_STOLEN],
        }
    }

    /// The list of that thread alone.
    pub fn of(thread: ThreadId) -> Stolen
        ensures { result ≡ thread ∷ [] }
    {
        let mut stolen = Stolen::empty();
        stolen.push(thread);
        stolen
    }

    /// Whether the two are the same list.
    pub fn is(self, other: Stolen) -> bool
        ensures { IsTrue result ↔ (self ≡ other) }
    {
        self == other
    }

    /// One thread more, at the end.
    pub fn push(&mut self, thread: ThreadId)
        requires { length self.old < MAX_STOLEN }
        ensures { self.new ≡ self.old ++ thread ∷ [] }
    {
        self.ids[self.len as usize] = thread;
        self.len += 1;
    }

    /// The number of threads, at most `MAX_STOLEN`.
    pub fn len(&self) -> u32
        ensures len { result ≡ length self.now }
        ensures few { result ≤ MAX_STOLEN }
    {
        self.len
    }

    /// Whether there is no thread.
    pub fn is_empty(&self) -> bool
        ensures { IsTrue result ↔ (self.now ≡ []) }
    {
        self.len == 0
    }

    /// The thread in that place, from 0.
    pub fn get(&self, at: u32) -> ThreadId
        requires { at < length self.now }
        ensures item { slice_get self.now at ≡ Some result }
        ensures value { result ≡ slice_index self.now at }
    {
        self.ids[at as usize]
    }
}
