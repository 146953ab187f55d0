//! Who plays the cores of a run.

/// Who plays the cores, side by side where threads can be started.
#[derive(Clone, Copy)]
pub enum Players {
    /// For each core a thread of its own.
    ThreadEach,
    /// So many workers, from 1 to `MAX_WORKERS`, each with some of the cores. It plays them one step at a time.
    Crew(u32),
}
