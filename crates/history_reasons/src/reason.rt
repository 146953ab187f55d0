//! Why an entry isn't legal.

use round_model::Did;
use sched_base::{CoreId, Pos, Stolen, ThreadId};

/// The first rule that an entry breaks, and what should stand there.
#[derive(Clone, Copy)]
pub enum Reason {
    /// A round begins, and some core has yet to make its attempt of the last one.
    Waits,
    /// A round begins, and none is due: all rounds of the trace have begun, or all threads have ended.
    NoneDue,
    /// A round begins with another number than this one.
    Number(u32),
    /// A core acts, and no round is open.
    NoneOpen,
    /// A core acts that isn't one of the machine's.
    NoCore,
    /// This thread is the next that the core lets in, or none is left.
    Enters(Option<ThreadId>),
    /// This thread is the next that wakes at the core, or none is left.
    Wakes(Option<ThreadId>),
    /// The core has run its unit of the round.
    HasWorked,
    /// The core has yet to run its unit of the round.
    IsToWork,
    /// The core has made its attempt of the round.
    HasAttempted,
    /// The entry has another number of reads than this one.
    ReadCount(u32),
    /// The read of the core is none of the positions that it may be.
    Read {
        core: CoreId,
        saw: Pos,
        /// The position just after the last Round.
        first: Pos,
        /// The position of the entry.
        last: Pos,
    },
    /// By these reads the policy places the thread on this core.
    Place(CoreId),
    /// The unit comes to this, if to anything.
    Unit(Option<Did>),
    /// By these reads the policy chooses this core, or none.
    Choice(Option<CoreId>),
    /// Whether threads are taken: the filter still holds, and one waits.
    Filter(bool),
    /// The steal takes these threads.
    Threads(Stolen),
}
