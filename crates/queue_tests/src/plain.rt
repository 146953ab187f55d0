//! A queue's tasks in a plain list, where the best one is found by a walk along all of them.

ghost use Rattle.std.specs.Prelude.{◌<◌, IfSome, length};
ghost use Rattle.policy_tree.specs.Meaning.{order_tree};
ghost use Rattle.policy_eval.specs.Evaluable.{IsEvaluableOrder};

use crate::drawn::Drawn;
use lists::Items;
use policy_eval::{Env, better};
use policy_tree::Order;
use sched_base::{Task, ThreadId};

/// The place of the best task by the order, of equals the earliest.
pub(crate) fn best_place(tasks: &Items<Drawn>, order: &Order) -> Option<u32>
    requires { IsEvaluableOrder (order_tree order.now) }
    ensures { IfSome result (λ at. at < length tasks.now) }
{
    if tasks.is_empty() {
        return None;
    }
    let mut best = 0;
    for at in 1..tasks.len() {
        if comes_first(order, *tasks.get(at), *tasks.get(best)) {
            best = at;
        }
    }
    Some(best)
}

/// Whether the first task comes strictly before the second.
fn comes_first(order: &Order, first: Drawn, second: Drawn) -> bool
    requires { IsEvaluableOrder (order_tree order.now) }
{
    let first = first.task();
    let second = second.task();
    better(order, &Env::of_thread(&first), &Env::of_thread(&second))
}

/// The place of the earliest task of that thread.
pub(crate) fn place_of(tasks: &Items<Drawn>, id: ThreadId) -> Option<u32>
    ensures { IfSome result (λ at. at < length tasks.now) }
{
    for at in 0..tasks.len() {
        if tasks.get(at).id == id {
            return Some(at);
        }
    }
    None
}

/// The weights of the tasks, added up.
pub(crate) fn load_of(tasks: &Items<Drawn>) -> u64 {
    let mut sum: u64 = 0;
    for at in 0..tasks.len() {
        sum = sum.saturating_add(u64::from(tasks.get(at).task().weight));
    }
    sum
}

/// The number of the thread in that place.
pub(crate) fn number_at(tasks: &Items<Drawn>, place: Option<u32>) -> Option<ThreadId>
    requires { IfSome place (λ at. at < length tasks.now) }
{
    let at = place?;
    Some(tasks.get(at).id)
}

/// The task in that place, which is taken out.
pub(crate) fn take_out(tasks: &mut Items<Drawn>, place: Option<u32>) -> Option<Task>
    requires { IfSome place (λ at. at < length tasks.old) }
{
    let at = place?;
    Some(tasks.remove(at).task())
}
