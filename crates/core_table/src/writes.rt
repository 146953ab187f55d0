//! The beginning of a round, from the hold of its log to the release.

ghost use Rattle.std.specs.Prelude.{◌≡◌, ◌<◌, []};
ghost use Rattle.core_table.specs.Opened.{Sits};
ghost use Rattle.core_table.specs.Plays.{Begins};
ghost use Rattle.core_table.specs.Told.{HasAllBack, MayBeginRound};

use crate::draws::begin;
use crate::plays::{Place, Shared};
use crate::steps::{hold_rounds, release_rounds};
use round_model::Entry;
use sched_base::Pos;
use std::sync::Wait;

/// Draws the beginning of that round, and writes it into the log of the rounds.
pub(crate) fn write_round<R: Wait>(
    rt: &R,
    shared: &Shared,
    place: &mut Place,
    cores: u32,
    number: u32,
) -> Pos
    requires table { Sits shared.now.table_id shared.now.key place.old.table_id place.old.me.0 }
    requires cores { cores ≡ shared.now.key.plan.value.cores }
    requires back { HasAllBack place.old.me.0 }
    requires free { place.old.me.0.held ≡ [] }
    requires may { MayBeginRound place.old.me.0 number }
    requires slots { place.old.me.1 ≡ [] }
    ensures table { (place.new.table_id ≡ place.old.table_id) × (place.new.id ≡ place.old.id) }
    ensures slots { place.new.me.1 ≡ [] }
    ensures begun { Begins number place.old.me.0 result place.new.me.0 }
{
    let mut log = hold_rounds(rt, shared, place, cores);
    let at = begin(shared, place, number) as Pos;
    log.log(at, Entry::Round { number });
    release_rounds(shared, place, cores, log);
    at
}
