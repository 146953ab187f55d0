//! The kinds of step that seats take, and what each tells.

ghost use Rattle.core_table.specs.Plays.{gives_back, publishes, reads, tells, tries};

use crate::slots::Slot;
use crate::views::View;
use atomic_table::{Join, Play, TableRule};
use policy_tree::Policy;
use round_model::Plan;
use std::snapshot::Snapshot;

/// What a table is opened with, as contracts see it.
#[derive(Drop)]
pub struct Opening {
    pub policy: Snapshot<Policy>,
    pub plan: Snapshot<Plan>,
}

/// The rule that every step keeps.
pub struct Rule;

impl TableRule<Slot, View, Opening> for Rule {
    ghost use Rattle.core_table.specs.Opened.{first_view_of, holds_of};

    ghost holds = { holds_of };

    ghost first = { first_view_of };
}

/// A core is taken, if it is at home.
pub struct Take;

impl Play<Slot, View> for Take {
    ghost then = { tries };
}

/// What was taken last is given back.
pub struct GiveBack;

impl Play<Slot, View> for GiveBack {
    ghost then = { gives_back };
}

/// The word of a held core is written.
pub struct Publish;

impl Play<Slot, View> for Publish {
    ghost then = { publishes };
}

/// The word of a core is read.
pub struct Glance;

impl Play<Slot, View> for Glance {
    ghost then = { reads };
}

/// The seat tells what it knows.
pub struct Tell;

impl Play<Slot, View> for Tell {
    ghost then = { tells };
}

/// A core's seat comes back to the opening one.
pub struct JoinBack;

impl Join<View> for JoinBack {
    ghost use Rattle.core_table.specs.Views.{joining, spent_view};

    ghost both = { joining };

    ghost spent = { spent_view };
}

/// The table as all seats share it.
pub type Shared = atomic_table::Shared<Slot, View, Opening, Rule>;

/// A seat, without what calls keep beside it.
pub type Place = atomic_table::Seat<Slot, View>;
