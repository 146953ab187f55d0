//! Threads, and the numbers that name cores, threads and entries.

use crate::limits::MAX_ATTRIBUTES;

/// The number of a core, from 0.
pub type CoreId = u32;

/// The number of a thread, from 1.
pub type ThreadId = u32;

/// A place in a history: the number of entries that come before it.
pub type Pos = u32;

/// How far a thread has come in its program.
#[derive(Clone, Copy)]
pub struct Place {
    /// The burst that it runs next, from 0. After its last burst it is the number of bursts.
    pub burst: u32,
    /// The units of that burst that are done. In a burst without end this stays as it is.
    pub done: u32,
}

/// A thread that has entered.
#[derive(Clone, Copy)]
pub struct Task {
    pub id: ThreadId,
    /// What the thread adds to its core's load: 1 where loads are counts.
    pub weight: u32,
    /// The values of the thread's attributes in the order of their declaration, 0 past the last.
    pub attrs: [i32; MAX_ATTRIBUTES],
    pub place: Place,
}
