//! How much the difference of a comparison's two sides grows by a thread of the thief or of the victim.

ghost use Rattle.std.specs.Prelude.{◌≡◌, ◌≤◌, ◌<◌, ◌^◌, pos, ◌+ℤ◌, int_le, unsigned_abs};
ghost use Rattle.std.specs.Ordering.{int_eq};
ghost use Rattle.policy_tree.specs.Trees.{expr_tree, minus};
ghost use Rattle.policy_eval.specs.Evaluable.{IsEvaluable};
ghost use Rattle.policy_eval.specs.Ranges.{AreIn, wide_ranges};
ghost use Rattle.policy_eval.specs.Values.{value_of};
ghost use Rattle.rest_bounds.specs.Following.{asks_within, growth, nobody, own_more, victim_more, with_load};

use policy_eval::{CoreValues, Env, value};
use policy_tree::Expr;
use sched_base::{MAX_ATTRIBUTES, MAX_WEIGHT};

/// A core with one thread of that weight, whose attributes are all 0.
fn with_one(weight: u32) -> CoreValues
    ensures { result ≡ with_load 1 weight }
{
    CoreValues {
        nr: 1,
        load: u64::from(weight),
        consts: [0; MAX_ATTRIBUTES],
    }
}

/// What the filter sees where neither core has a thread.
fn nobody() -> Env
    ensures values { result.vals ≡ nobody }
    ensures wide { AreIn wide_ranges result.vals }
{
    Env::of_pair(&CoreValues::NONE, &CoreValues::NONE)
}

/// What it sees where the thief has one thread of that weight.
fn own_more(weight: u32) -> Env
    requires light { weight ≤ MAX_WEIGHT }
    ensures values { result.vals ≡ own_more weight }
    ensures wide { AreIn wide_ranges result.vals }
{
    Env::of_pair(&with_one(weight), &CoreValues::NONE)
}

/// What it sees where the victim has one.
fn victim_more(weight: u32) -> Env
    requires light { weight ≤ MAX_WEIGHT }
    ensures values { result.vals ≡ victim_more weight }
    ensures wide { AreIn wide_ranges result.vals }
{
    Env::of_pair(&CoreValues::NONE, &with_one(weight))
}

/// The value of the left side less that of the right side.
fn difference(left: &Expr, right: &Expr, at: &Env) -> i128
    requires left { IsEvaluable (expr_tree left.now) }
    requires right { IsEvaluable (expr_tree right.now) }
    requires values { AreIn wide_ranges at.now.vals }
    ensures value { result ≡ value_of at.now.vals (minus (expr_tree left.now) (expr_tree right.now)) }
    ensures small { unsigned_abs result < 2 ^ 77 }
{
    value(left, at) - value(right, at)
}

/// How much that difference grows from where neither core has a thread.
fn growth(left: &Expr, right: &Expr, more: &Env) -> i128
    requires left { IsEvaluable (expr_tree left.now) }
    requires right { IsEvaluable (expr_tree right.now) }
    requires values { AreIn wide_ranges more.now.vals }
    ensures value { result ≡ growth more.now.vals (minus (expr_tree left.now) (expr_tree right.now)) }
    ensures small { unsigned_abs result < 2 ^ 78 }
{
    difference(left, right, more) - difference(left, right, &nobody())
}

/// Whether both sides are equal where neither core has a thread, and all attributes are 0.
pub fn starts_even(left: &Expr, right: &Expr) -> bool
    requires left { IsEvaluable (expr_tree left.now) }
    requires right { IsEvaluable (expr_tree right.now) }
    ensures { result ≡ int_eq (value_of nobody (minus (expr_tree left.now) (expr_tree right.now))) (pos 0) }
{
    difference(left, right, &nobody()) == 0
}

/// Whether the victim's threads change nothing of the difference.
pub fn is_flat(left: &Expr, right: &Expr, weight: u32) -> bool
    requires light { weight ≤ MAX_WEIGHT }
    requires left { IsEvaluable (expr_tree left.now) }
    requires right { IsEvaluable (expr_tree right.now) }
    ensures { result ≡ int_eq
        (growth (victim_more weight) (minus (expr_tree left.now) (expr_tree right.now))) (pos 0) }
{
    growth(left, right, &victim_more(weight)) == 0
}

/// Whether the left side gains on the right side, or at least loses nothing, by a thread more of the victim.
pub fn gains(left: &Expr, right: &Expr, weight: u32) -> bool
    requires light { weight ≤ MAX_WEIGHT }
    requires left { IsEvaluable (expr_tree left.now) }
    requires right { IsEvaluable (expr_tree right.now) }
    ensures { result ≡ int_le (pos 0)
        (growth (victim_more weight) (minus (expr_tree left.now) (expr_tree right.now))) }
{
    growth(left, right, &victim_more(weight)) >= 0
}

/// Whether it gains nothing by a thread more of both. So it loses nothing where both have a thread fewer.
pub fn gains_not_with_both(left: &Expr, right: &Expr, weight: u32) -> bool
    requires light { weight ≤ MAX_WEIGHT }
    requires left { IsEvaluable (expr_tree left.now) }
    requires right { IsEvaluable (expr_tree right.now) }
    ensures { result ≡ int_le
        (growth (own_more weight) (minus (expr_tree left.now) (expr_tree right.now))
        +ℤ growth (victim_more weight) (minus (expr_tree left.now) (expr_tree right.now)))
        (pos 0) }
{
    let own = growth(left, right, &own_more(weight));
    let victim = growth(left, right, &victim_more(weight));
    own + victim <= 0
}

/// Whether a variable of the expression has a number from the first on and below the second.
pub fn asks_within(expr: &Expr, from: u32, to: u32) -> bool
    ensures { result ≡ asks_within from to (expr_tree expr.now) }
{
    match expr {
        Expr::Num(_) => false,
        Expr::Var(at) => from <= *at && *at < to,
        Expr::Neg(inner) => asks_within(inner, from, to),
        Expr::Add(left, right) | Expr::Sub(left, right) | Expr::Mul(left, right) => {
            asks_within(left, from, to) || asks_within(right, from, to)
        }
    }
}
