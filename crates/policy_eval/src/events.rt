//! What an event does to the thread that meets it.

ghost use Rattle.std.specs.Prelude.{◌≡◌, ◌≤ℤ◌, [], ◌∷◌, fold, length, map};
ghost use Rattle.std.specs.List.{AllByRecursion};
ghost use Rattle.policy_tree.specs.Meaning.{meaning_of, set_tree};
ghost use Rattle.policy_eval.specs.Events.{IsSettable, holding_cases, outcomes_of, saturated, task_after_set};
ghost use Rattle.policy_eval.specs.Fitting.{IsTask};
ghost use Rattle.policy_eval.specs.Ranges.{AreIn, attribute_ranges};
ghost use Rattle.policy_eval.specs.Resolved.{IsResolved};

use crate::env::Env;
use crate::evaluation::{holds, value};
use policy_tree::{Attr, Event, Policy, Put, Set, SetList};
use sched_base::{MAX_ATTRIBUTES, Task};

/// The thread as the one case that holds leaves it, and where that case puts it.
///
/// `fresh` says whether the thread enters just now; `consts` are those of the core that holds it.
pub fn apply_case(
    policy: &Policy,
    event: Event,
    fresh: bool,
    task: Task,
    consts: &[i32; MAX_ATTRIBUTES],
) -> (Task, Put)
    requires policy { IsResolved (meaning_of policy.now) }
    requires task { IsTask (meaning_of policy.now) task }
    requires consts { AreIn (attribute_ranges policy.now.core_attrs) consts.now }
    requires one { length (holding_cases (meaning_of policy.now) event fresh consts.now task) ≡ 1 }
    ensures { outcomes_of (meaning_of policy.now) event fresh consts.now task ≡ result ∷ [] }
{
    let env = Env::of_event(fresh, consts, &task);
    let cases = policy.handlers.cases(event);
    for at in 0..cases.len() {
        let case = cases.get(at);
        if holds(&case.guard, &env) {
            let changed = apply_sets(policy, fresh, task, consts, &case.sets);
            return (changed, case.put);
        }
    }
    unreachable!()
}

/// The thread after these assignments, in their order.
fn apply_sets(
    policy: &Policy,
    fresh: bool,
    task: Task,
    consts: &[i32; MAX_ATTRIBUTES],
    sets: &SetList,
) -> Task
    requires policy { IsResolved (meaning_of policy.now) }
    requires task { IsTask (meaning_of policy.now) task }
    requires consts { AreIn (attribute_ranges policy.now.core_attrs) consts.now }
    requires sets { AllByRecursion (IsSettable (meaning_of policy.now)) (map set_tree sets.now) }
    ensures { result ≡ fold (task_after_set (meaning_of policy.now) fresh consts.now) task
        (map set_tree sets.now) }
{
    let mut changed = task;
    for at in 0..sets.len() {
        changed = apply_set(policy, fresh, changed, consts, sets.get(at));
    }
    changed
}

/// The thread after one assignment.
fn apply_set(
    policy: &Policy,
    fresh: bool,
    task: Task,
    consts: &[i32; MAX_ATTRIBUTES],
    set: &Set,
) -> Task
    requires policy { IsResolved (meaning_of policy.now) }
    requires task { IsTask (meaning_of policy.now) task }
    requires consts { AreIn (attribute_ranges policy.now.core_attrs) consts.now }
    requires set { IsSettable (meaning_of policy.now) (set_tree set.now) }
    ensures value { result ≡ task_after_set (meaning_of policy.now) fresh consts.now task (set_tree set.now) }
    ensures fits { IsTask (meaning_of policy.now) result }
{
    let exact = value(&set.expr, &Env::of_event(fresh, consts, &task));
    let attr = policy.thread_attrs.get(set.attr);
    let mut changed = task;
    changed.attrs[set.attr as usize] = saturate(attr, exact);
    changed
}

/// The value brought to the nearest end of the attribute's range, where it lies outside.
fn saturate(attr: &Attr, exact: i128) -> i32
    requires { attr.now.lo ≤ℤ attr.now.hi }
    ensures { result ≡ saturated attr.now exact }
{
    exact.clamp(i128::from(attr.lo), i128::from(attr.hi)) as i32
}
