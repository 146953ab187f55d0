//! The entries of a history.

ghost use Rattle.std.specs.Prelude.{◌≡◌};

use lists::Items;
use sched_base::{CoreId, Reads, Stolen, ThreadId};

/// The entries in the order of their positions, from 0.
pub type History = Items<Entry>;

/// What became of the current thread in a unit of work.
#[derive(Clone, Copy, PartialEq, Eq)]
pub enum Did {
    /// There was none.
    Nothing,
    /// It stays the current one.
    Kept(ThreadId),
    /// It went to the end of the queue.
    Queued(ThreadId),
    /// It went to the end of the blocked list.
    Blocked(ThreadId),
    /// It left the core for good.
    Ended(ThreadId),
}

/// One event of the model.
#[derive(Clone, Copy)]
pub enum Entry {
    /// A round begins.
    Round {
        number: u32,
    },
    /// A thread of the plan enters.
    Enter {
        thread: ThreadId,
        by: CoreId,
        at: CoreId,
        reads: Reads,
    },
    /// A blocked thread wakes.
    Wake {
        thread: ThreadId,
        by: CoreId,
        at: CoreId,
        reads: Reads,
    },
    /// A core runs one unit.
    Work {
        by: CoreId,
        did: Did,
    },
    /// A core takes queued threads of another, in the order of their moves.
    Steal {
        by: CoreId,
        from: CoreId,
        threads: Stolen,
        reads: Reads,
    },
    /// A core chose another, and takes nothing of it.
    Fail {
        by: CoreId,
        from: CoreId,
        reads: Reads,
    },
    /// A core found none to take from.
    Pass {
        by: CoreId,
        reads: Reads,
    },
}

impl Entry {
    ghost use Rattle.round_model.specs.Attempts.{steal_or_fail as steals_or_fails};
    ghost use Rattle.round_model.specs.Entries.{acting_core as core_that_acts, acts as acts_in, reads_of};
    ghost use Rattle.round_model.specs.Entries.{touches as touches_core};
    ghost use Rattle.round_model.specs.Kinds.{is_attempt as makes_attempt, is_round as begins_round};
    ghost use Rattle.round_model.specs.Kinds.{is_work as runs_unit};

    /// The entry of the core `by` for an attempt on the core `from` that moves these threads: a fail where there is
    /// none.
    pub fn steal_or_fail(by: CoreId, from: CoreId, threads: Stolen, reads: Reads) -> Entry
        ensures { result ≡ steals_or_fails by from reads threads }
    {
        if threads.is_empty() {
            Entry::Fail { by, from, reads }
        } else {
            Entry::Steal {
                by,
                from,
                threads,
                reads,
            }
        }
    }

    /// The core that acts in the entry, `None` where a round begins.
    pub fn acting_core(&self) -> Option<CoreId>
        ensures { result ≡ core_that_acts self.now }
    {
        match self {
            Entry::Round { .. } => None,
            Entry::Enter { by, .. } | Entry::Wake { by, .. } => Some(*by),
            Entry::Work { by, .. } => Some(*by),
            Entry::Steal { by, .. } | Entry::Fail { by, .. } => Some(*by),
            Entry::Pass { by, .. } => Some(*by),
        }
    }

    /// The positions that the entry read, none where a round begins and in a unit of work.
    pub fn reads(&self) -> Reads
        ensures { result ≡ reads_of self.now }
    {
        match self {
            Entry::Round { .. } | Entry::Work { .. } => Reads::empty(),
            Entry::Enter { reads, .. } | Entry::Wake { reads, .. } => *reads,
            Entry::Steal { reads, .. } | Entry::Fail { reads, .. } => *reads,
            Entry::Pass { reads, .. } => *reads,
        }
    }

    /// Whether the core acts in the entry. In a round's beginning none does.
    #[tactic(auto, unfolding(crate::specs::Entries::acts))]
    pub fn acts(&self, core: CoreId) -> bool
        ensures { result ≡ acts_in core self.now }
    {
        match self {
            Entry::Round { .. } => false,
            Entry::Enter { by, .. } | Entry::Wake { by, .. } => *by == core,
            Entry::Work { by, .. } => *by == core,
            Entry::Steal { by, .. } | Entry::Fail { by, .. } => *by == core,
            Entry::Pass { by, .. } => *by == core,
        }
    }

    /// Whether the entry touches the core: whatever it changes or decides about stands there.
    #[tactic(auto, unfolding(crate::specs::Entries::touches))]
    pub fn touches(&self, core: CoreId) -> bool
        ensures { result ≡ touches_core core self.now }
    {
        match self {
            Entry::Round { .. } => false,
            Entry::Enter { at, .. } => *at == core,
            Entry::Wake { by, at, .. } => *by == core || *at == core,
            Entry::Work { by, .. } | Entry::Pass { by, .. } => *by == core,
            Entry::Steal { by, from, .. } | Entry::Fail { by, from, .. } => {
                *by == core || *from == core
            }
        }
    }

    /// Whether a round begins.
    pub fn is_round(&self) -> bool
        ensures { result ≡ begins_round self.now }
    {
        matches!(self, Entry::Round { .. })
    }

    /// Whether a core runs a unit.
    pub fn is_work(&self) -> bool
        ensures { result ≡ runs_unit self.now }
    {
        matches!(self, Entry::Work { .. })
    }

    /// Whether it is a core's attempt of the round: a steal, a fail or a pass.
    pub fn is_attempt(&self) -> bool
        ensures { result ≡ makes_attempt self.now }
    {
        matches!(
            self,
            Entry::Steal { .. } | Entry::Fail { .. } | Entry::Pass { .. }
        )
    }
}
