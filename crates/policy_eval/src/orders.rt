//! Which of two comes first by the keys of an order.

ghost use Rattle.std.specs.Prelude.{◌≡◌};
ghost use Rattle.policy_tree.specs.Meaning.{key_tree, order_tree};
ghost use Rattle.policy_eval.specs.Evaluable.{IsEvaluableKey, IsEvaluableOrder};
ghost use Rattle.policy_eval.specs.Orders.{key_order as order_by_key, precedes, truth_order as order_of_truth};
ghost use Rattle.policy_eval.specs.Ranges.{AreIn, wide_ranges};
ghost use Rattle.policy_eval.specs.Sights.{thread_values};

use crate::env::Env;
use crate::evaluation::{holds, value};
use policy_tree::{Key, Order};
use sched_base::Task;
use std::cmp::Ordering;

/// Whether the thread `a` comes strictly before the thread `b`. Where there is no key nothing of them is laid out.
pub fn comes_first(order: &Order, a: &Task, b: &Task) -> bool
    requires order { IsEvaluableOrder (order_tree order.now) }
    requires first { AreIn wide_ranges (thread_values a.now.weight a.now.attrs) }
    requires second { AreIn wide_ranges (thread_values b.now.weight b.now.attrs) }
    ensures { result ≡ precedes (order_tree order.now)
        (thread_values a.now.weight a.now.attrs) (thread_values b.now.weight b.now.attrs) }
{
    if order.is_empty() {
        return false;
    }
    better(order, &Env::of_thread(a), &Env::of_thread(b))
}

/// Whether `a` comes strictly before `b`: the first key that tells them apart decides.
pub fn better(order: &Order, a: &Env, b: &Env) -> bool
    requires order { IsEvaluableOrder (order_tree order.now) }
    requires first { AreIn wide_ranges a.now.vals }
    requires second { AreIn wide_ranges b.now.vals }
    ensures { result ≡ precedes (order_tree order.now) a.now.vals b.now.vals }
{
    for at in 0..order.len() {
        match key_order(order.get(at), a, b) {
            Ordering::Less => return true,
            Ordering::Equal => {}
            Ordering::Greater => return false,
        }
    }
    false
}

/// How `a` and `b` stand by one key. Nothing else knows what kinds of keys there are.
fn key_order(key: &Key, a: &Env, b: &Env) -> Ordering
    requires key { IsEvaluableKey (key_tree key.now) }
    requires first { AreIn wide_ranges a.now.vals }
    requires second { AreIn wide_ranges b.now.vals }
    ensures { result ≡ order_by_key (key_tree key.now) a.now.vals b.now.vals }
{
    match key {
        Key::Least(expr) => value(expr, a).cmp(&value(expr, b)),
        Key::Greatest(expr) => value(expr, b).cmp(&value(expr, a)),
        Key::Prefer(cond) => truth_order(holds(cond, a), holds(cond, b)),
    }
}

/// What is true comes before what is false.
fn truth_order(first: bool, second: bool) -> Ordering
    ensures { result ≡ order_of_truth first second }
{
    match (first, second) {
        (true, false) => Ordering::Less,
        (false, true) => Ordering::Greater,
        _ => Ordering::Equal,
    }
}
