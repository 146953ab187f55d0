//! The type in which C computes an expression.

ghost use Rattle.std.specs.Prelude.{◌≡◌, slice_get};
ghost use Rattle.policy_tree.specs.Meaning.{meaning_of};
ghost use Rattle.policy_tree.specs.Trees.{expr_tree};
ghost use Rattle.policy_eval.specs.Ranges.{greatest_weight, least_weight};
ghost use Rattle.c_printer.specs.Widths.{attribute_bound, bound_of, fitting, product_bound, sum_bound};
ghost use Rattle.c_printer.specs.Widths.{variable_bound, width_for, width_of};

use crate::words::Width;
use policy_tree::variables::{
    FRESH, OTHER_ATTRIBUTES, OTHER_LOAD, OTHER_NR, SELF_ATTRIBUTES, SELF_LOAD, SELF_NR,
    THREAD_ATTRIBUTES, WEIGHT,
};
use policy_tree::{AttrList, Expr, Load, Policy};
use sched_base::MAX_THREADS;

/// The greatest `int` that every compiler of a kernel has.
pub(crate) const MAX_INT: u64 = 2_147_483_647;

/// The greatest `int64_t`.
pub(crate) const MAX_LONG: u64 = 9_223_372_036_854_775_807;

/// The type in which the expression is computed.
pub(crate) fn width_of(policy: &Policy, expr: &Expr) -> Width
    ensures { result ≡ width_of (meaning_of policy.now) (expr_tree expr.now) }
{
    width_for(bound_of(policy, expr))
}

fn width_for(bound: Option<u64>) -> Width
    ensures { result ≡ width_for bound }
{
    match bound {
        None => Width::Wide,
        Some(bound) => {
            if bound <= MAX_INT {
                Width::Small
            } else {
                Width::Long
            }
        }
    }
}

/// A bound of the expression's magnitude, where each of its parts fits `int64_t`.
fn bound_of(policy: &Policy, expr: &Expr) -> Option<u64>
    ensures { result ≡ bound_of (meaning_of policy.now) (expr_tree expr.now) }
{
    match expr {
        Expr::Num(value) => fitting(u128::from(value.unsigned_abs())),
        Expr::Var(at) => fitting(u128::from(variable_bound(policy, *at))),
        Expr::Neg(inner) => bound_of(policy, inner),
        Expr::Add(left, right) => sum_bound(bound_of(policy, left), bound_of(policy, right)),
        Expr::Sub(left, right) => sum_bound(bound_of(policy, left), bound_of(policy, right)),
        Expr::Mul(left, right) => product_bound(bound_of(policy, left), bound_of(policy, right)),
    }
}

/// The bound, where `int64_t` has all numbers of that magnitude.
fn fitting(bound: u128) -> Option<u64>
    ensures { result ≡ fitting bound }
{
    if bound <= u128::from(MAX_LONG) {
        Some(bound as u64)
    } else {
        None
    }
}

fn sum_bound(one: Option<u64>, other: Option<u64>) -> Option<u64>
    ensures { result ≡ sum_bound one other }
{
    match (one, other) {
        (Some(one), Some(other)) => fitting(u128::from(one) + u128::from(other)),
        (Some(_), None) | (None, _) => None,
    }
}

fn product_bound(one: Option<u64>, other: Option<u64>) -> Option<u64>
    ensures { result ≡ product_bound one other }
{
    match (one, other) {
        (Some(one), Some(other)) => fitting(u128::from(one.max(1)) * u128::from(other.max(1))),
        (Some(_), None) | (None, _) => None,
    }
}

/// The greatest magnitude that the variable may have.
fn variable_bound(policy: &Policy, at: u32) -> u64
    ensures { result ≡ variable_bound (meaning_of policy.now) at }
{
    if at == SELF_NR || at == OTHER_NR {
        MAX_THREADS as u64
    } else if at == SELF_LOAD || at == OTHER_LOAD {
        MAX_THREADS as u64 * u64::from(greatest_weight(policy.load))
    } else if at == WEIGHT {
        u64::from(greatest_weight(policy.load))
    } else if at == FRESH {
        1
    } else if at < OTHER_ATTRIBUTES {
        attribute_bound(&policy.core_attrs, at - SELF_ATTRIBUTES)
    } else if at < THREAD_ATTRIBUTES {
        attribute_bound(&policy.core_attrs, at - OTHER_ATTRIBUTES)
    } else {
        attribute_bound(&policy.thread_attrs, at - THREAD_ATTRIBUTES)
    }
}

/// The greatest magnitude in the range of an attribute, 0 where it isn't declared.
fn attribute_bound(attrs: &AttrList, at: u32) -> u64
    ensures { result ≡ attribute_bound (slice_get attrs.now at) }
{
    match attrs.as_slice().get(at as usize) {
        Some(attr) => u64::from(attr.lo.unsigned_abs().max(attr.hi.unsigned_abs())),
        None => 0,
    }
}

/// The least weight of a thread.
pub(crate) fn least_weight(load: Load) -> u32
    ensures { result ≡ least_weight load }
{
    match load {
        Load::Count => 1,
        Load::Weight { lo, .. } => lo,
    }
}

/// The greatest weight of a thread.
pub(crate) fn greatest_weight(load: Load) -> u32
    ensures { result ≡ greatest_weight load }
{
    match load {
        Load::Count => 1,
        Load::Weight { hi, .. } => hi,
    }
}
