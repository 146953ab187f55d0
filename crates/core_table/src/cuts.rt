//! A seat of a core is split off, and joined back.

ghost use Rattle.std.specs.Prelude.{◌≡◌, ◌<◌, []};
ghost use Rattle.atomic_table.specs.Table.{Splits};
ghost use Rattle.core_table.specs.Opened.{Sits, holds_of};
ghost use Rattle.core_table.specs.Told.{HasIdle, IsFreeSeat, IsKnown, IsOpening};
ghost use Rattle.core_table.specs.Views.{joining, leaving, seat_of_core};

use crate::plays::{JoinBack, Place, Shared, Tell};
use crate::views::View;
use atomic_table::Split;
use sched_base::CoreId;
use std::marker::Brand;

impl Split<View> for Brand {
    ghost left = { λ v. v };

    ghost right = { λ v. v };
}

/// Splits a seat off. How the view is cut depends on the core, so that the call picks it.
fn cut<M: Split<View>>(shared: &Shared, place: &mut Place, core: CoreId) -> Place
    requires table { Sits shared.now.table_id shared.now.key place.old.table_id place.old.me.0 }
    requires picked { (M.left place.old.me.0 ≡ leaving core place.old.me.0)
        × (M.right place.old.me.0 ≡ seat_of_core core place.old.me.0) }
    requires rule { Splits (holds_of shared.now.key) place.old.id place.old.me.0
        (leaving core place.old.me.0) (seat_of_core core place.old.me.0) }
    ensures table { (place.new.table_id ≡ place.old.table_id) × (place.new.id ≡ place.old.id) }
    ensures left { place.new.me ≡ (leaving core place.old.me.0, place.old.me.1) }
    ensures right { (result.table_id ≡ place.old.table_id) × (result.me ≡ (seat_of_core core place.old.me.0, [])) }
{
    shared.split_seat::<M>(place)
}

/// A seat of the core, split off the opening one.
pub(crate) fn split_off(shared: &Shared, place: &mut Place, core: CoreId) -> Place
    requires table { Sits shared.now.table_id shared.now.key place.old.table_id place.old.me.0 }
    requires idle { HasIdle place.old.me.0 core }
    requires round { 0 < place.old.me.0.round }
    ensures table { (place.new.table_id ≡ place.old.table_id) × (place.new.id ≡ place.old.id) }
    ensures left { place.new.me ≡ (leaving core place.old.me.0, place.old.me.1) }
    ensures right { (result.table_id ≡ place.old.table_id) × (result.me ≡ (seat_of_core core place.old.me.0, [])) }
{
    cut::<Brand>(shared, place, core)
}

/// Tells what the seat knows. It loads the number of the next entry and drops it, since a join itself tells nothing.
fn tell(shared: &Shared, place: &mut Place)
    requires table { Sits shared.now.table_id shared.now.key place.old.table_id place.old.me.0 }
    ensures table { (place.new.table_id ≡ place.old.table_id) × (place.new.id ≡ place.old.id) }
    ensures known { (place.new.me ≡ place.old.me) × IsKnown place.new.me.0 }
{
    shared.load::<Tell>(place, 0);
}

/// Joins the core's seat back to the opening one.
pub(crate) fn join_to(shared: &Shared, place: &mut Place, other: Place)
    requires table { Sits shared.now.table_id shared.now.key place.old.table_id place.old.me.0 }
    requires other { Sits shared.now.table_id shared.now.key other.table_id other.me.0 }
    requires opening { IsOpening place.old.me.0 }
    requires free { IsFreeSeat other.me.0 }
    requires slots { other.me.1 ≡ [] }
    ensures table { (place.new.table_id ≡ place.old.table_id) × (place.new.id ≡ place.old.id) }
    ensures joined { (place.new.me ≡ (joining place.old.me.0 other.me.0, place.old.me.1)) × IsKnown place.new.me.0 }
{
    shared.join_seat::<JoinBack>(place, other);
    tell(shared, place);
}
