//! The steps on the number of the next entry. What each tells depends on the entry, so that its call picks the play.

ghost use Rattle.std.specs.Prelude.{◌≡◌, ◌+◌, ◌%◌, ◌^◌, ℕ};
ghost use Rattle.atomic_table.specs.Table.{Allows, Step};
ghost use Rattle.core_table.specs.declared.slots.Slot.{Slot as SlotValue};
ghost use Rattle.core_table.specs.Opened.{Sits, holds_of};
ghost use Rattle.core_table.specs.Plays.{SeatNow, begins, draws};
ghost use Rattle.core_table.specs.Public.{IsActors};
ghost use Rattle.core_table.specs.Told.{HasAllBack, HoldsRounds, HoldsTouched, IsLocalIn, MayBeginRound};

use crate::plays::{Place, Shared};
use crate::slots::Slot;
use crate::views::View;
use atomic_table::Play;
use round_model::Entry;
use std::marker::Brand;

impl Play<Slot, View> for Brand {
    ghost then = { λ _ _ _ _. Unit {0} };
}

/// Takes the next number for an entry of a core.
fn advance<M: Play<Slot, View>>(shared: &Shared, place: &mut Place, entry: &Entry) -> u64
    requires table { Sits shared.now.table_id shared.now.key place.old.table_id place.old.me.0 }
    requires picked { (st : Step SlotValue) (old : SeatNow) (n : ℕ) (new : SeatNow) →
        (draws entry.now old n new → M.then st old n new) × (M.then st old n new → draws entry.now old n new) }
    requires rule { Allows (holds_of shared.now.key) shared.now.table_id.slots place.old.id place.old.me 0
        (λ n. (n + 1) % 2 ^ 64) (λ n new. draws entry.now place.old.me n new) }
    ensures table { (place.new.table_id ≡ place.old.table_id) × (place.new.id ≡ place.old.id) }
    ensures drawn { draws entry.now place.old.me result place.new.me }
{
    shared.fetch_add::<M>(place, 0, 1)
}

/// The number of an entry of the seat's own core.
pub(crate) fn draw(shared: &Shared, place: &mut Place, entry: &Entry) -> u64
    requires table { Sits shared.now.table_id shared.now.key place.old.table_id place.old.me.0 }
    requires actor { IsActors place.old.me.0 entry.now }
    requires touched { HoldsTouched place.old.me.0 entry.now }
    requires legal { IsLocalIn place.old.me.0 entry.now }
    ensures table { (place.new.table_id ≡ place.old.table_id) × (place.new.id ≡ place.old.id) }
    ensures drawn { draws entry.now place.old.me result place.new.me }
{
    advance::<Brand>(shared, place, entry)
}

/// Takes the next number for the beginning of a round.
fn open_round<M: Play<Slot, View>>(shared: &Shared, place: &mut Place, number: u32) -> u64
    requires table { Sits shared.now.table_id shared.now.key place.old.table_id place.old.me.0 }
    requires picked { (st : Step SlotValue) (old : SeatNow) (n : ℕ) (new : SeatNow) →
        (begins number old n new → M.then st old n new) × (M.then st old n new → begins number old n new) }
    requires rule { Allows (holds_of shared.now.key) shared.now.table_id.slots place.old.id place.old.me 0
        (λ n. (n + 1) % 2 ^ 64) (λ n new. begins number place.old.me n new) }
    ensures table { (place.new.table_id ≡ place.old.table_id) × (place.new.id ≡ place.old.id) }
    ensures begun { begins number place.old.me result place.new.me }
{
    shared.fetch_add::<M>(place, 0, 1)
}

/// The number of the entry with which that round begins.
pub(crate) fn begin(shared: &Shared, place: &mut Place, number: u32) -> u64
    requires table { Sits shared.now.table_id shared.now.key place.old.table_id place.old.me.0 }
    requires back { HasAllBack place.old.me.0 }
    requires alone { HoldsRounds place.old.me.0 }
    requires may { MayBeginRound place.old.me.0 number }
    ensures table { (place.new.table_id ≡ place.old.table_id) × (place.new.id ≡ place.old.id) }
    ensures begun { begins number place.old.me result place.new.me }
{
    open_round::<Brand>(shared, place, number)
}
