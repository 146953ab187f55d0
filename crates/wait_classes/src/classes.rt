//! The classes of policies, and the class of a policy.

ghost use Rattle.std.specs.Prelude.{◌≡◌};
ghost use Rattle.policy_tree.specs.Meaning.{key_tree, meaning_of, order_tree};
ghost use Rattle.policy_tree.specs.Trees.{expr_tree};
ghost use Rattle.policy_eval.specs.Resolved.{IsResolved};
ghost use Rattle.wait_classes.specs.Classes.{HasClass, class_by_least, class_in_order, class_of, slices_from};
ghost use Rattle.wait_classes.specs.Electing.{attribute_in, elected_by, least_attribute};

use crate::rules::{Rule, obeys_after_units};
use policy_tree::variables::THREAD_ATTRIBUTES;
use policy_tree::{Expr, Key, Order, Policy};

/// Which law of waiting applies to a policy. Attributes are those of threads, by their numbers in the order of their
/// declaration, from 0.
#[derive(Clone, Copy)]
pub enum WaitClass {
    /// `law_waiting` applies: after a unit a thread goes to the queue's end, unless it blocks or ends.
    Queue,
    /// `law_slices` applies: a thread keeps its core only where a unit lowers that attribute, and so at most `keeps`
    /// times in a row, as often as the attribute's range has numbers above its lower end.
    Slices { attribute: u32, keeps: u32 },
    /// `law_least` applies: the thread with the least value of that attribute is elected, and a unit raises the value,
    /// or leaves it at its upper end.
    Least { attribute: u32 },
    /// No law was found to apply.
    Unknown,
}

/// The class of a policy. Nothing is asked of the policy; the law of the class applies to one that is resolved.
pub fn wait_class(policy: &Policy) -> WaitClass
    ensures class { result ≡ class_of (meaning_of policy.now) }
    ensures applies { IsResolved (meaning_of policy.now) → HasClass (meaning_of policy.now) result }
{
    if policy.elect.is_empty() {
        class_in_order(policy)
    } else {
        class_by_least(policy)
    }
}

/// The class of a policy that elects the first that waits.
fn class_in_order(policy: &Policy) -> WaitClass
    ensures { result ≡ class_in_order (meaning_of policy.now) }
{
    if obeys_after_units(Rule::Queues, policy) {
        WaitClass::Queue
    } else {
        slices(policy)
    }
}

/// The slices by the first attribute that falls wherever a thread is kept.
fn slices(policy: &Policy) -> WaitClass
    ensures { result ≡ slices_from (meaning_of policy.now) 0 policy.now.thread_attrs }
{
    for attribute in 0..policy.thread_attrs.len() {
        let attr = policy.thread_attrs.get(attribute);
        let low = i64::from(attr.lo);
        if obeys_after_units(Rule::Falls { attribute, low }, policy) {
            let keeps = attr.hi.abs_diff(attr.lo);
            return WaitClass::Slices { attribute, keeps };
        }
    }
    WaitClass::Unknown
}

/// The class of a policy that elects by keys.
fn class_by_least(policy: &Policy) -> WaitClass
    ensures { result ≡ class_by_least (meaning_of policy.now) (elected_by (order_tree policy.now.elect)) }
{
    match elected_by(&policy.elect) {
        Some(attribute) if attribute < policy.thread_attrs.len() => {
            let high = i64::from(policy.thread_attrs.get(attribute).hi);
            if obeys_after_units(Rule::Rises { attribute, high }, policy) {
                WaitClass::Least { attribute }
            } else {
                WaitClass::Unknown
            }
        }
        _ => WaitClass::Unknown,
    }
}

/// The attribute whose least value is elected, if it is that of one.
fn elected_by(elect: &Order) -> Option<u32>
    ensures { result ≡ elected_by (order_tree elect.now) }
{
    if elect.len() == 1 {
        least_attribute(elect.get(0))
    } else {
        None
    }
}

/// The attribute whose least value comes first by the key.
fn least_attribute(key: &Key) -> Option<u32>
    ensures { result ≡ least_attribute (key_tree key.now) }
{
    match key {
        Key::Least(expr) => attribute_in(expr),
        Key::Greatest(_) => None,
        Key::Prefer(_) => None,
    }
}

/// The attribute that the expression is, if it is one.
fn attribute_in(expr: &Expr) -> Option<u32>
    ensures { result ≡ attribute_in (expr_tree expr.now) }
{
    match expr {
        Expr::Var(at) => {
            if THREAD_ATTRIBUTES <= *at {
                Some(*at - THREAD_ATTRIBUTES)
            } else {
                None
            }
        }
        Expr::Num(_) | Expr::Neg(_) => None,
        Expr::Add(_, _) | Expr::Sub(_, _) | Expr::Mul(_, _) => None,
    }
}
