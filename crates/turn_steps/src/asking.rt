//! What a turn asks, and what it is told.

use round_model::Did;
use sched_base::ThreadId;
use select_phase::Look;

/// What the turn of a core asks next.
#[derive(Clone, Copy)]
pub enum Ask {
    /// That this thread enters.
    Arrive(ThreadId),
    /// That the next thread that is due wakes, if one is.
    Wake,
    /// That the unit is run.
    Work,
    /// A look at all cores.
    Look,
    /// The attempt by this look.
    Act(Look),
    /// Nothing: the turn is over.
    Over,
}

/// What came of that.
#[derive(Clone, Copy)]
pub enum Told {
    /// The thread entered.
    Arrived,
    /// A thread woke.
    Woke,
    /// No thread of the core is due.
    NothingDue,
    /// The unit was run, and this became of the thread that ran.
    Worked(Did),
    /// The core looked at all cores.
    Looked(Look),
    /// The attempt was made.
    Acted,
}
