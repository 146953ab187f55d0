//! Whether two cores are the same.

ghost use Rattle.std.specs.Prelude.{◌≡◌, ◌↔◌, IsTrue};
ghost use Rattle.starving_plays.specs.Starving.{IsThatCore};

use round_model::{ModelCore, TaskList};
use sched_base::{MAX_ATTRIBUTES, Place, Task};

/// Whether the core is that one, and nobody is blocked there.
pub(crate) fn is_that_core(core: &ModelCore, that: &ModelCore) -> bool
    ensures { IsTrue result ↔ IsThatCore core.now that.now }
{
    if !core.blocked.is_empty() {
        return false;
    }
    if !that.blocked.is_empty() {
        return false;
    }
    are_same_values(&core.consts, &that.consts) && have_same_threads(core, that)
}

/// Whether the two have the same current task, and the same queue.
fn have_same_threads(core: &ModelCore, that: &ModelCore) -> bool
    ensures { IsTrue result ↔ ((core.now.current ≡ that.now.current) × (core.now.queue ≡ that.now.queue)) }
{
    are_same_currents(core.current, that.current) && are_same_queues(&core.queue, &that.queue)
}

/// Whether the two are the same task, or no task both.
fn are_same_currents(one: Option<Task>, other: Option<Task>) -> bool
    ensures { IsTrue result ↔ (one ≡ other) }
{
    match (one, other) {
        (Some(one), Some(other)) => is_same(&one, &other),
        (None, None) => true,
        (Some(_), None) | (None, Some(_)) => false,
    }
}

/// Whether the two queues have the same tasks in the same places.
fn are_same_queues(one: &TaskList, other: &TaskList) -> bool
    ensures { IsTrue result ↔ (one.now ≡ other.now) }
{
    if one.len() != other.len() {
        return false;
    }
    for at in 0..one.len() {
        if !is_same(one.get(at), other.get(at)) {
            return false;
        }
    }
    true
}

/// Whether the two tasks are the same.
fn is_same(one: &Task, other: &Task) -> bool
    ensures { IsTrue result ↔ (one.now ≡ other.now) }
{
    if one.id != other.id {
        return false;
    }
    if one.weight != other.weight {
        return false;
    }
    if !are_same_values(&one.attrs, &other.attrs) {
        return false;
    }
    is_same_place(one.place, other.place)
}

/// Whether the two places in a program are the same.
fn is_same_place(one: Place, other: Place) -> bool
    ensures { IsTrue result ↔ (one ≡ other) }
{
    one.burst == other.burst && one.done == other.done
}

/// Whether these are the same values of attributes.
fn are_same_values(one: &[i32; MAX_ATTRIBUTES], other: &[i32; MAX_ATTRIBUTES]) -> bool
    ensures { IsTrue result ↔ (one.now ≡ other.now) }
{
    *one == *other
}
