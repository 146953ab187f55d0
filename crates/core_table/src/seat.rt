//! A table, its seats, what a seat holds, and what a read finds.

ghost use Rattle.std.specs.Prelude.{◌≡◌, ◌≤◌, true, length, vec_capacity};
ghost use Rattle.core_table.specs.Opened.{IsOpened, emptied};
ghost use Rattle.core_table.specs.Told.{IsKnown};
ghost use Rattle.core_table.specs.Views.{is_live};

use crate::ends::Inner;
use crate::plays::Place;
use core_state::CoreState;
use sched_base::{CoreId, MAX_ATTRIBUTES, Pos};

/// The cores of a plan, as threads share them. Each step of a thread needs a seat of its own.
#[derive(Drop)]
pub struct Table {
    pub(crate) inner: Inner,
    /// The number of cores.
    pub(crate) cores: u32,
    /// The constants of each core.
    pub(crate) consts: Vec<[i32; MAX_ATTRIBUTES]>,
    /// Room for all cores, which `close` fills.
    pub(crate) room: Vec<CoreState>,
    ghost opened: { IsOpened inner.shared.table_id inner.shared.key.plan.value },
    ghost count: { cores ≡ inner.shared.key.plan.value.cores },
    ghost same: { length consts.items ≡ cores },
    ghost each: { consts.items ≡ inner.shared.key.plan.value.consts },
    ghost empty: { length room.items ≡ 0 },
    ghost roomy: { cores ≤ vec_capacity room },
}

/// What a thread takes its steps with. `open` gives one, and each core's seat is split off it.
#[derive(Drop)]
pub struct Seat {
    pub(crate) place: Place,
    /// The position just after the last Round that the seat knows, and 0 before the first.
    pub(crate) start: Pos,
    ghost carries: { place.me.1 ≡ emptied place.me.0.held },
    ghost starts: { start ≡ place.me.0.start },
    ghost live: { is_live place.me.0.role ≡ true },
    ghost known: { ∥ IsKnown place.me.0 ∥₁ },
}

/// A core that a seat holds. It is let go by `release` alone.
pub struct Held {
    pub core: CoreId,
    pub state: CoreState,
}

/// Two cores that a seat holds, in the order in which they were asked for.
pub struct HeldTwo {
    pub first: Held,
    pub second: Held,
}

/// What a read found of a core that needn't be held.
#[derive(Clone, Copy, Debug, PartialEq, Eq)]
pub struct Read {
    /// A position of the open round at which the core was so, at most that of the next entry.
    pub at: Pos,
    /// The threads that were current or queued.
    pub nr: u32,
    /// The sum of their weights.
    pub load: u64,
}
