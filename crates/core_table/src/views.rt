//! What a seat knows. Only contracts speak of these types: no value of them is made.
//!
//! An array stands for a list of any length.

use core_state::{CoreState, Logged};
use policy_tree::Policy;
use round_model::state::CountAndLoad;
use round_model::{Entry, Plan};
use sched_base::{CoreId, Pos};

/// One read of a core, without holding it.
pub struct Note {
    pub core: CoreId,
    /// The position at which the core was so.
    pub at: Pos,
    pub seen: CountAndLoad,
}

/// A core that a seat holds, or, under the number of cores, the log of the rounds.
pub struct HeldCore {
    pub core: CoreId,
    pub state: CoreState,
    /// The version that its word says.
    pub version: Pos,
}

/// What the opening seat knows of a core in the open round.
pub enum Turn {
    /// Its seat isn't out, and it has no entry.
    Idle,
    /// Its seat is out.
    Out,
    /// Its seat came back with these entries.
    Done([Logged; 0]),
}

/// Which seat it is.
pub enum Role {
    /// The one that `open` gave: the entries up to the last Round, and each core's turn.
    Opening {
        merged: [Entry; 0],
        turns: [Turn; 0],
    },
    /// One that was split off for a core: whether no blocked thread of it is due in the round.
    Core {
        core: CoreId,
        none_due: bool,
    },
    /// One that was joined away.
    Spent,
}

/// What a seat knows. Of notes and held cores the newest stand in front.
pub struct View {
    pub policy: Policy,
    pub plan: Plan,
    pub role: Role,
    /// The number of the open round, and 0 before the first.
    pub round: u32,
    /// The position just after the last Round, and 0 before the first.
    pub start: Pos,
    /// The entries of its core in the open round, with their positions.
    pub own: [Logged; 0],
    pub notes: [Note; 0],
    pub held: [HeldCore; 0],
}
