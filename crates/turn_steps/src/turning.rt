//! How far the turn of a core has come.

ghost use Rattle.std.specs.Prelude.{◌≡◌, ◌+◌, ◌*◌, ◌<◌, ◌≤◌};
ghost use Rattle.sched_base.specs.declared.limits.TheConstants.{MAX_ENTRIES};
ghost use Rattle.turn_steps.specs.Reaches.{IsBehindThreads};

use crate::reached::Reached;
use sched_base::CoreId;

/// The turn of a core in a round. It keeps what it was told: two counts and the answers behind them, since these come
/// in one order.
#[derive(Clone, Copy)]
pub struct Turning {
    pub(crate) core: CoreId,
    pub(crate) round: u32,
    /// How many threads of the plan enter by the core in the round.
    pub(crate) entering: u32,
    /// How many of them have.
    pub(crate) arrived: u32,
    /// How many threads woke.
    pub(crate) woke: u32,
    pub(crate) reached: Reached,
    ghost within: { arrived ≤ entering },
    ghost waking: { 0 < woke → arrived ≡ entering },
    ghost behind: { IsBehindThreads reached → arrived ≡ entering },
    ghost few: { arrived + woke ≤ 2 * MAX_ENTRIES },
}
