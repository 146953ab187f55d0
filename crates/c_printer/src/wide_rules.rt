//! Says whether a policy has a rule that C computes in `__int128`.

ghost use Rattle.std.specs.Prelude.{◌≡◌, option_map};
ghost use Rattle.std.specs.List.{list_any};
ghost use Rattle.policy_tree.specs.Meaning.{batch_tree, case_tree, key_tree, meaning_of, order_tree, place_tree};
ghost use Rattle.policy_tree.specs.Meaning.{set_tree};
ghost use Rattle.policy_tree.specs.Trees.{cond_tree, expr_tree};
ghost use Rattle.c_printer.specs.WideRules.{has_wide_event, has_wide_key, has_wide_rule, has_wide_test};
ghost use Rattle.c_printer.specs.WideRules.{has_wide_value, is_wide, is_wide_batch, is_wide_case, is_wide_event};
ghost use Rattle.c_printer.specs.WideRules.{is_wide_key, is_wide_place, is_wide_policy, is_wide_set};

use crate::widths::width_of;
use crate::words::Width;
use policy_tree::{Batch, Case, Cond, Event, Expr, Key, Order, PlaceRule, Policy, Set};

pub(crate) fn is_wide_policy(policy: &Policy) -> bool
    ensures { result ≡ is_wide_policy (meaning_of policy.now) }
{
    has_wide_rule(policy) || has_wide_event(policy)
}

/// Whether the filter, an order, the batch or the placement is so.
fn has_wide_rule(policy: &Policy) -> bool
    ensures { result ≡ has_wide_rule (meaning_of policy.now) }
{
    has_wide_test(policy, &policy.filter)
        || has_wide_key(policy, &policy.choose)
        || has_wide_key(policy, &policy.steal)
        || has_wide_key(policy, &policy.elect)
        || is_wide_batch(policy, &policy.batch)
        || is_wide_place(policy, &policy.place)
}

fn has_wide_event(policy: &Policy) -> bool
    ensures { result ≡ has_wide_event (meaning_of policy.now) }
{
    is_wide_event(policy, Event::Enqueue)
        || is_wide_event(policy, Event::Tick)
        || is_wide_event(policy, Event::Yield)
        || is_wide_event(policy, Event::Block)
}

fn is_wide_event(policy: &Policy, event: Event) -> bool
    ensures { result ≡ is_wide_event (meaning_of policy.now) event }
{
    some_wide_case(policy, policy.handlers.cases(event).as_slice())
}

fn some_wide_case(policy: &Policy, cases: &[Case]) -> bool
    ensures { result ≡ list_any (λ case. is_wide_case (meaning_of policy.now) (case_tree case)) cases.now }
{
    cases.iter().any(|case| is_wide_case(policy, case))
}

fn is_wide_case(policy: &Policy, case: &Case) -> bool
    ensures { result ≡ is_wide_case (meaning_of policy.now) (case_tree case.now) }
{
    has_wide_test(policy, &case.guard) || some_wide_set(policy, case.sets.as_slice())
}

fn some_wide_set(policy: &Policy, sets: &[Set]) -> bool
    ensures { result ≡ list_any (λ set. is_wide_set (meaning_of policy.now) (set_tree set)) sets.now }
{
    sets.iter().any(|set| is_wide_set(policy, set))
}

fn is_wide_set(policy: &Policy, set: &Set) -> bool
    ensures { result ≡ is_wide_set (meaning_of policy.now) (set_tree set.now) }
{
    has_wide_value(policy, &set.expr)
}

fn is_wide_place(policy: &Policy, place: &PlaceRule) -> bool
    ensures { result ≡ is_wide_place (meaning_of policy.now) (place_tree place.now) }
{
    match place {
        PlaceRule::Here => false,
        PlaceRule::Least(expr) => has_wide_value(policy, expr),
    }
}

fn is_wide_batch(policy: &Policy, batch: &Option<Batch>) -> bool
    ensures { result ≡ is_wide_batch (meaning_of policy.now) (option_map batch_tree batch.now) }
{
    match batch {
        None => false,
        Some(batch) => has_wide_test(policy, &batch.cond),
    }
}

fn has_wide_key(policy: &Policy, order: &Order) -> bool
    ensures { result ≡ has_wide_key (meaning_of policy.now) (order_tree order.now) }
{
    some_wide_key(policy, order.as_slice())
}

fn some_wide_key(policy: &Policy, keys: &[Key]) -> bool
    ensures { result ≡ list_any (λ key. is_wide_key (meaning_of policy.now) (key_tree key)) keys.now }
{
    keys.iter().any(|key| is_wide_key(policy, key))
}

fn is_wide_key(policy: &Policy, key: &Key) -> bool
    ensures { result ≡ is_wide_key (meaning_of policy.now) (key_tree key.now) }
{
    match key {
        Key::Least(expr) | Key::Greatest(expr) => has_wide_value(policy, expr),
        Key::Prefer(cond) => has_wide_test(policy, cond),
    }
}

/// Whether a side of one of its comparisons is so.
fn has_wide_test(policy: &Policy, cond: &Cond) -> bool
    ensures { result ≡ has_wide_test (meaning_of policy.now) (cond_tree cond.now) }
{
    match cond {
        Cond::Always => false,
        Cond::Not(inner) => has_wide_test(policy, inner),
        Cond::And(left, right) => has_wide_test(policy, left) || has_wide_test(policy, right),
        Cond::Or(left, right) => has_wide_test(policy, left) || has_wide_test(policy, right),
        Cond::Test(_, left, right) => has_wide_value(policy, left) || has_wide_value(policy, right),
    }
}

fn has_wide_value(policy: &Policy, expr: &Expr) -> bool
    ensures { result ≡ has_wide_value (meaning_of policy.now) (expr_tree expr.now) }
{
    is_wide(width_of(policy, expr))
}

fn is_wide(width: Width) -> bool
    ensures { result ≡ is_wide width }
{
    match width {
        Width::Small | Width::Long => false,
        Width::Wide => true,
    }
}
