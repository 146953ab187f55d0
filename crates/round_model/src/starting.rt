//! A thread as it enters.

ghost use Rattle.std.specs.Prelude.{◌≡◌, ◌≤◌, length};
ghost use Rattle.policy_tree.specs.Meaning.{meaning_of};
ghost use Rattle.policy_eval.specs.Resolved.{IsResolved};
ghost use Rattle.round_model.specs.Programs.{entering_task as task_entering, starting_attrs as attrs_at_start};

use crate::plan::Planned;
use policy_tree::{Attr, Policy};
use sched_base::{MAX_ATTRIBUTES, Place, Task};

/// The thread as it enters.
pub fn entering_task(policy: &Policy, thread: &Planned) -> Task
    requires { IsResolved (meaning_of policy.now) }
    ensures { result ≡ task_entering (meaning_of policy.now) thread.now }
{
    Task {
        id: thread.id,
        weight: thread.weight,
        attrs: starting_attrs(policy),
        place: Place { burst: 0, done: 0 },
    }
}

/// The attribute values with which every thread begins.
fn starting_attrs(policy: &Policy) -> [i32; MAX_ATTRIBUTES]
    requires { length policy.now.thread_attrs ≤ MAX_ATTRIBUTES }
    ensures { result ≡ attrs_at_start (meaning_of policy.now) }
{
    let mut attrs = [0; MAX_ATTRIBUTES];
    for at in 0..policy.thread_attrs.len() {
        attrs[at as usize] = start_of(policy.thread_attrs.get(at));
    }
    attrs
}

/// The value with which the attribute begins.
fn start_of(attr: &Attr) -> i32
    ensures { result ≡ attr.now.start }
{
    attr.start
}
