//! Whether a filter goes by how far the victim is ahead. The numbers are those of a comparison's two sides with one
//! thread more; no expression is built.

ghost use Rattle.std.specs.Prelude.{◌≡◌, ◌≤◌};
ghost use Rattle.policy_tree.specs.Meaning.{meaning_of};
ghost use Rattle.policy_tree.specs.Trees.{cond_tree, expr_tree, minus};
ghost use Rattle.policy_eval.specs.Evaluable.{IsEvaluable};
ghost use Rattle.policy_eval.specs.Forms.{EachSide};
ghost use Rattle.policy_eval.specs.Resolved.{IsResolved};
ghost use Rattle.rest_bounds.specs.Following.{asks_within, is_own_multiple, keeps, raises_lowest, rises, stays};
ghost use Rattle.rest_bounds.specs.Following.{test_keeps};

use crate::growing::{asks_within, gains, gains_not_with_both, is_flat, starts_even};
use policy_tree::variables::{OTHER_ATTRIBUTES, SELF_ATTRIBUTES, THREAD_ATTRIBUTES};
use policy_tree::{Cmp, Cond, Expr, Load, Policy};
use sched_base::MAX_WEIGHT;

/// Whether the policy is found to raise the lowest. Not found to do so it may still do it: of a batch nothing is found,
/// nor of comparisons that only all together go by how far the victim is ahead.
pub fn raises_lowest(policy: &Policy) -> bool
    requires { IsResolved (meaning_of policy.now) }
    ensures { result ≡ raises_lowest (meaning_of policy.now) }
{
    let (least, greatest) = match policy.load {
        Load::Count => (1, 1),
        Load::Weight { lo, hi } => (lo, hi),
    };
    least == greatest && policy.batch.is_none() && keeps(true, &policy.filter, least)
}

/// Whether each comparison of the condition keeps its outcome, where the condition has that outcome.
fn keeps(outcome: bool, cond: &Cond, weight: u32) -> bool
    requires light { weight ≤ MAX_WEIGHT }
    requires sides { EachSide IsEvaluable (cond_tree cond.now) }
    ensures { result ≡ keeps weight outcome (cond_tree cond.now) }
{
    let mut rest = cond;
    loop {
        match rest {
            Cond::Always => return true,
            Cond::Test(how, left, right) => return test_keeps(outcome, *how, left, right, weight),
            Cond::Not(inner) => return keeps(!outcome, inner, weight),
            Cond::And(left, right) | Cond::Or(left, right) => {
                if !keeps(outcome, right, weight) {
                    return false;
                }
                rest = left;
            }
        }
    }
}

/// Whether the comparison keeps that outcome.
fn test_keeps(outcome: bool, how: Cmp, left: &Expr, right: &Expr, weight: u32) -> bool
    requires light { weight ≤ MAX_WEIGHT }
    requires left { IsEvaluable (expr_tree left.now) }
    requires right { IsEvaluable (expr_tree right.now) }
    ensures { result ≡ test_keeps weight outcome how (expr_tree left.now) (expr_tree right.now) }
{
    match (how, outcome) {
        (Cmp::Eq, true) | (Cmp::Ne, false) => {
            stays(left, right, weight) || is_own_multiple(left, right, weight)
        }
        (Cmp::Eq, false) | (Cmp::Ne, true) => stays(left, right, weight),
        (Cmp::Lt | Cmp::Le, true) | (Cmp::Gt | Cmp::Ge, false) => rises(right, left, weight),
        (Cmp::Lt | Cmp::Le, false) | (Cmp::Gt | Cmp::Ge, true) => rises(left, right, weight),
    }
}

/// Whether neither side gains on the other.
fn stays(left: &Expr, right: &Expr, weight: u32) -> bool
    requires light { weight ≤ MAX_WEIGHT }
    requires left { IsEvaluable (expr_tree left.now) }
    requires right { IsEvaluable (expr_tree right.now) }
    ensures { result ≡ stays weight (expr_tree left.now) (expr_tree right.now) }
{
    rises(left, right, weight) && rises(right, left, weight)
}

/// Whether the left side loses nothing to the right side by a thread more of the victim, nor by a thread fewer of both,
/// whatever the thief's attributes.
#[tactic(auto, unfolding(crate::specs::Following::rises))]
fn rises(left: &Expr, right: &Expr, weight: u32) -> bool
    requires light { weight ≤ MAX_WEIGHT }
    requires left { IsEvaluable (expr_tree left.now) }
    requires right { IsEvaluable (expr_tree right.now) }
    ensures { result ≡ rises weight (minus (expr_tree left.now) (expr_tree right.now)) }
{
    gains(left, right, weight)
        && gains_not_with_both(left, right, weight)
        && !either_asks(left, right, OTHER_ATTRIBUTES)
}

/// Whether the difference of both sides is a multiple of the thief's thread count.
#[tactic(auto, unfolding(crate::specs::Following::is_own_multiple))]
fn is_own_multiple(left: &Expr, right: &Expr, weight: u32) -> bool
    requires light { weight ≤ MAX_WEIGHT }
    requires left { IsEvaluable (expr_tree left.now) }
    requires right { IsEvaluable (expr_tree right.now) }
    ensures { result ≡ is_own_multiple weight (minus (expr_tree left.now) (expr_tree right.now)) }
{
    starts_even(left, right)
        && is_flat(left, right, weight)
        && !either_asks(left, right, THREAD_ATTRIBUTES)
}

/// Whether an attribute of a core stands in either side that has a number below that one.
fn either_asks(left: &Expr, right: &Expr, to: u32) -> bool
    ensures { result ≡ asks_within SELF_ATTRIBUTES to (minus (expr_tree left.now) (expr_tree right.now)) }
{
    asks_within(left, SELF_ATTRIBUTES, to) || asks_within(right, SELF_ATTRIBUTES, to)
}
