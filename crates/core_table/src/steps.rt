//! One private function for each step on the word of a core, or of the log of the rounds.

ghost use Rattle.std.specs.Prelude.{◌≡◌, ◌+◌, ◌<◌, ◌≤◌, List, ◌∷◌, IfNone, IfSome, true, false};
ghost use Rattle.atomic_table.specs.Table.{rest};
ghost use Rattle.round_model.specs.Cores.{seen_of};
ghost use Rattle.core_state.specs.Views.{CoreView};
ghost use Rattle.core_table.specs.declared.slots.Slot.TheVariants.{Out};
ghost use Rattle.core_table.specs.declared.views.HeldCore.{HeldCore};
ghost use Rattle.core_table.specs.Opened.{Sits};
ghost use Rattle.core_table.specs.Plays.{GivesBack, Publishes, Reads, Takes};
ghost use Rattle.core_table.specs.Public.{HasCore};
ghost use Rattle.core_table.specs.Seats.{IsNewest, Took, TookRounds};
ghost use Rattle.core_table.specs.Views.{slot_of, version_of};
ghost use Rattle.core_table.specs.Words.{out_mark, word_of};

use crate::plays::{GiveBack, Glance, Place, Publish, Shared, Take};
use crate::slots::{RoundLog, Slot};
use core_state::CoreState;
use crossbeam_utils::Backoff;
use sched_base::CoreId;
use std::sync::Wait;

/// The bit of a word that says that its core is out with a seat. `pack` leaves it 0.
pub(crate) const OUT: u64 = 1 << 63;

/// Marks the word. Whether it wasn't marked, so that the core, or the log of the rounds, is now the seat's.
fn mark(shared: &Shared, place: &mut Place, core: CoreId) -> bool
    requires table { Sits shared.now.table_id shared.now.key place.old.table_id place.old.me.0 }
    requires core { core ≤ shared.now.key.plan.value.cores }
    ensures table { (place.new.table_id ≡ place.old.table_id) × (place.new.id ≡ place.old.id) }
    ensures free { result ≡ true → Takes core place.old.me place.new.me }
    ensures taken { result ≡ false → place.new.me ≡ place.old.me }
{
    let found = shared.fetch_or::<Take>(place, core as usize + 1, OUT);
    found < OUT
}

/// One try to take the core out of its slot.
fn try_hold(shared: &Shared, place: &mut Place, core: CoreId) -> Option<CoreState>
    requires table { Sits shared.now.table_id shared.now.key place.old.table_id place.old.me.0 }
    requires core { core < shared.now.key.plan.value.cores }
    ensures table { (place.new.table_id ≡ place.old.table_id) × (place.new.id ≡ place.old.id) }
    ensures some { IfSome result (λ y. Took core y place.old.me place.new.me) }
    ensures none { IfNone result (place.new.me ≡ place.old.me) }
{
    if !mark(shared, place, core) {
        return None;
    }
    let Slot::Core(state) = shared.exchange(place, core as usize, Slot::Out) else {
        unreachable!()
    };
    Some(state)
}

/// Takes the core out of its slot, once it is at home.
pub(crate) fn hold<R: Wait>(rt: &R, shared: &Shared, place: &mut Place, core: CoreId) -> CoreState
    requires table { Sits shared.now.table_id shared.now.key place.old.table_id place.old.me.0 }
    requires core { core < shared.now.key.plan.value.cores }
    ensures table { (place.new.table_id ≡ place.old.table_id) × (place.new.id ≡ place.old.id) }
    ensures took { Took core result place.old.me place.new.me }
{
    let backoff = Backoff::new();
    for _ in rt.forever() {
        if let Some(state) = try_hold(shared, place, core) {
            return state;
        }
        backoff.spin();
    }
    unreachable!()
}

/// One try to take the log of the rounds out of its slot.
fn try_hold_rounds(shared: &Shared, place: &mut Place, cores: u32) -> Option<RoundLog>
    requires table { Sits shared.now.table_id shared.now.key place.old.table_id place.old.me.0 }
    requires cores { cores ≡ shared.now.key.plan.value.cores }
    ensures table { (place.new.table_id ≡ place.old.table_id) × (place.new.id ≡ place.old.id) }
    ensures some { IfSome result (λ log. TookRounds log place.old.me place.new.me) }
    ensures none { IfNone result (place.new.me ≡ place.old.me) }
{
    if !mark(shared, place, cores) {
        return None;
    }
    let Slot::Rounds(log) = shared.exchange(place, cores as usize, Slot::Out) else {
        unreachable!()
    };
    Some(log)
}

/// Takes the log of the rounds out of its slot, once it is at home.
pub(crate) fn hold_rounds<R: Wait>(
    rt: &R,
    shared: &Shared,
    place: &mut Place,
    cores: u32,
) -> RoundLog
    requires table { Sits shared.now.table_id shared.now.key place.old.table_id place.old.me.0 }
    requires cores { cores ≡ shared.now.key.plan.value.cores }
    ensures table { (place.new.table_id ≡ place.old.table_id) × (place.new.id ≡ place.old.id) }
    ensures took { TookRounds result place.old.me place.new.me }
{
    let backoff = Backoff::new();
    for _ in rt.forever() {
        if let Some(log) = try_hold_rounds(shared, place, cores) {
            return log;
        }
        backoff.spin();
    }
    unreachable!()
}

/// Takes the mark off the word of what was taken last. It must be back in its slot.
fn unmark(shared: &Shared, place: &mut Place, core: CoreId)
    requires table { Sits shared.now.table_id shared.now.key place.old.table_id place.old.me.0 }
    requires core { core ≤ shared.now.key.plan.value.cores }
    requires newest { (y : CoreView) × (earlier : List HeldCore) × IsNewest place.old.me.0 core y earlier
        × (place.old.me.1 ≡ (core, slot_of place.old.me.0.plan.cores core y) ∷ rest place.old.me.1) }
    ensures table { (place.new.table_id ≡ place.old.table_id) × (place.new.id ≡ place.old.id) }
    ensures home { GivesBack place.old.me place.new.me }
{
    shared.fetch_sub::<GiveBack>(place, core as usize + 1, OUT);
}

/// Puts the core that was taken last back into its slot, and takes the mark off its word.
pub(crate) fn release(shared: &Shared, place: &mut Place, core: CoreId, state: CoreState)
    requires table { Sits shared.now.table_id shared.now.key place.old.table_id place.old.me.0 }
    requires core { core < shared.now.key.plan.value.cores }
    requires newest { (earlier : List HeldCore) × IsNewest place.old.me.0 core state earlier }
    requires slot { place.old.me.1 ≡ (core, Out) ∷ rest place.old.me.1 }
    ensures table { (place.new.table_id ≡ place.old.table_id) × (place.new.id ≡ place.old.id) }
    ensures home { GivesBack place.old.me place.new.me }
{
    let Slot::Out = shared.exchange(place, core as usize, Slot::Core(state)) else {
        unreachable!()
    };
    unmark(shared, place, core);
}

/// The same for the log of the rounds.
pub(crate) fn release_rounds(shared: &Shared, place: &mut Place, cores: u32, log: RoundLog)
    requires table { Sits shared.now.table_id shared.now.key place.old.table_id place.old.me.0 }
    requires cores { cores ≡ shared.now.key.plan.value.cores }
    requires newest { (y : CoreView) × (earlier : List HeldCore) × IsNewest place.old.me.0 cores y earlier
        × (record { entries = y.log; room = y.log_room } ≡ log) }
    requires slot { place.old.me.1 ≡ (cores, Out) ∷ rest place.old.me.1 }
    ensures table { (place.new.table_id ≡ place.old.table_id) × (place.new.id ≡ place.old.id) }
    ensures home { GivesBack place.old.me place.new.me }
{
    let Slot::Out = shared.exchange(place, cores as usize, Slot::Rounds(log)) else {
        unreachable!()
    };
    unmark(shared, place, cores);
}

/// Writes the word of a held core, with its mark.
pub(crate) fn publish(shared: &Shared, place: &mut Place, core: CoreId, word: u64)
    requires table { Sits shared.now.table_id shared.now.key place.old.table_id place.old.me.0 }
    requires core { core < shared.now.key.plan.value.cores }
    requires held { (y : CoreView) × HasCore place.old.me.0 core y
        × (word ≡ word_of (version_of place.old.me.0.plan.cores core y) (seen_of y.core)) }
    requires free { word < out_mark }
    ensures table { (place.new.table_id ≡ place.old.table_id) × (place.new.id ≡ place.old.id) }
    ensures written { Publishes core (word + out_mark) place.old.me place.new.me }
{
    shared.store::<Publish>(place, core as usize + 1, word + OUT);
}

/// What the word of the core says, marked or not.
pub(crate) fn read(shared: &Shared, place: &mut Place, core: CoreId) -> u64
    requires table { Sits shared.now.table_id shared.now.key place.old.table_id place.old.me.0 }
    requires core { core < shared.now.key.plan.value.cores }
    ensures table { (place.new.table_id ≡ place.old.table_id) × (place.new.id ≡ place.old.id) }
    ensures noted { Reads core place.old.me result place.new.me }
{
    shared.load::<Glance>(place, core as usize + 1)
}
