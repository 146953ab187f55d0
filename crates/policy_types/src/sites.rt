//! Where an expression may stand, and to what it may refer there.

ghost use Rattle.std.specs.Prelude.{◌≡◌, ◌≤◌};
ghost use Rattle.policy_types.specs.References.{allows, allows_put, attribute_from, variable_of};

use policy_syntax::Owner;
use policy_tree::{Event, Put, variables};
use sched_base::{MAX_ATTRIBUTES, MAX_VARIABLES};

/// Where an expression or a condition stands.
#[derive(Clone, Copy)]
pub enum Site {
    Filter,
    /// Behind `within`: whether a level takes a core in.
    Within,
    Choose,
    Placement,
    Elect,
    Steal,
    /// Behind `while`: whether a steal goes on.
    GoingOn,
    /// In a case of that event.
    Handler(Event),
}

/// What a word says of its owner.
#[derive(Clone, Copy)]
pub enum Feature {
    /// How many threads a core has.
    Nr,
    /// The load of a core.
    Load,
    /// The weight of a thread.
    Weight,
    /// Whether a thread enters just now.
    Fresh,
    /// An attribute, by its number among those of its kind.
    Attribute(u32),
}

/// Whether that may be referred to there.
pub(crate) fn allows(site: Site, owner: Owner, feature: Feature) -> bool
    ensures { result ≡ allows site owner feature }
{
    match (site, owner) {
        (Site::Filter | Site::Choose | Site::GoingOn, Owner::Itself | Owner::Victim)
        | (Site::Placement, Owner::Core) => matches!(
            feature,
            Feature::Nr | Feature::Load | Feature::Attribute(_)
        ),
        (Site::Handler(Event::Enqueue), Owner::Thread) => matches!(
            feature,
            Feature::Weight | Feature::Fresh | Feature::Attribute(_)
        ),
        (Site::Elect | Site::Steal | Site::GoingOn | Site::Handler(_), Owner::Thread) => {
            matches!(feature, Feature::Weight | Feature::Attribute(_))
        }
        (Site::Within, Owner::Itself | Owner::Victim) | (Site::Handler(_), Owner::Itself) => {
            matches!(feature, Feature::Attribute(_))
        }
        _ => false,
    }
}

/// Whether a case of that event may put the thread there.
pub(crate) fn allows_put(event: Event, put: Put) -> bool
    ensures { result ≡ allows_put event put }
{
    match event {
        Event::Enqueue => matches!(put, Put::Queue),
        Event::Tick | Event::Yield => matches!(put, Put::Queue | Put::Keep),
        Event::Block => matches!(put, Put::Block),
    }
}

/// The number of the variable that it is, and one more than any where it is none.
pub(crate) fn variable_of(owner: Owner, feature: Feature) -> u32
    ensures { result ≡ variable_of owner feature }
{
    match (owner, feature) {
        (Owner::Itself, Feature::Nr) => variables::SELF_NR,
        (Owner::Itself, Feature::Load) => variables::SELF_LOAD,
        (Owner::Victim | Owner::Core, Feature::Nr) => variables::OTHER_NR,
        (Owner::Victim | Owner::Core, Feature::Load) => variables::OTHER_LOAD,
        (Owner::Thread, Feature::Weight) => variables::WEIGHT,
        (Owner::Thread, Feature::Fresh) => variables::FRESH,
        (Owner::Itself, Feature::Attribute(at)) => attribute_from(variables::SELF_ATTRIBUTES, at),
        (Owner::Victim | Owner::Core, Feature::Attribute(at)) => attribute_from(
            variables::OTHER_ATTRIBUTES,
            at,
        ),
        (Owner::Thread, Feature::Attribute(at)) => attribute_from(variables::THREAD_ATTRIBUTES, at),
        _ => MAX_VARIABLES as u32,
    }
}

/// The number of that attribute, where those of its kind have the numbers from the first on.
fn attribute_from(first: u32, at: u32) -> u32
    requires { first ≤ MAX_VARIABLES }
    ensures { result ≡ attribute_from first at }
{
    if (at as usize) < MAX_ATTRIBUTES {
        first + at
    } else {
        MAX_VARIABLES as u32
    }
}
