//! The value of an expression, and whether a condition holds.

ghost use Rattle.std.specs.Prelude.{◌≡◌};
ghost use Rattle.policy_tree.specs.Trees.{cond_tree, expr_tree};
ghost use Rattle.policy_eval.specs.Evaluable.{IsEvaluable};
ghost use Rattle.policy_eval.specs.Forms.{EachSide};
ghost use Rattle.policy_eval.specs.Ranges.{AreIn, wide_ranges};
ghost use Rattle.policy_eval.specs.Values.{compared, value_of, holds as holds_at};

use crate::env::Env;
use policy_tree::{Cmp, Cond, Expr};

/// The value of the expression, exact: no step of it overflows.
pub fn value(expr: &Expr, env: &Env) -> i128
    requires evaluable { IsEvaluable (expr_tree expr.now) }
    requires values { AreIn wide_ranges env.now.vals }
    ensures { result ≡ value_of env.now.vals (expr_tree expr.now) }
{
    match expr {
        Expr::Num(number) => i128::from(*number),
        Expr::Var(at) => i128::from(env.vals[*at as usize]),
        Expr::Neg(inner) => -value(inner, env),
        Expr::Add(left, right) => value(left, env) + value(right, env),
        Expr::Sub(left, right) => value(left, env) - value(right, env),
        Expr::Mul(left, right) => value(left, env) * value(right, env),
    }
}

/// Whether the condition holds. Chains of `and` and of `or` are walked from their end by a loop.
pub fn holds(cond: &Cond, env: &Env) -> bool
    requires evaluable { EachSide IsEvaluable (cond_tree cond.now) }
    requires values { AreIn wide_ranges env.now.vals }
    ensures { result ≡ holds_at env.now.vals (cond_tree cond.now) }
{
    let mut rest = cond;
    loop {
        match rest {
            Cond::Always => return true,
            Cond::Test(how, left, right) => return test(*how, left, right, env),
            Cond::Not(inner) => return !holds(inner, env),
            Cond::And(left, right) => {
                if !holds(right, env) {
                    return false;
                }
                rest = left;
            }
            Cond::Or(left, right) => {
                if holds(right, env) {
                    return true;
                }
                rest = left;
            }
        }
    }
}

/// The outcome of one comparison.
fn test(how: Cmp, left: &Expr, right: &Expr, env: &Env) -> bool
    requires left { IsEvaluable (expr_tree left.now) }
    requires right { IsEvaluable (expr_tree right.now) }
    requires values { AreIn wide_ranges env.now.vals }
    ensures { result ≡ compared how
        (value_of env.now.vals (expr_tree left.now))
        (value_of env.now.vals (expr_tree right.now)) }
{
    let left = value(left, env);
    let right = value(right, env);
    match how {
        Cmp::Eq => left == right,
        Cmp::Ne => left != right,
        Cmp::Lt => left < right,
        Cmp::Le => left <= right,
        Cmp::Gt => left > right,
        Cmp::Ge => left >= right,
    }
}
