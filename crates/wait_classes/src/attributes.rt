//! What the text of a case says of one attribute of its thread. Values are compared as they stand; none is computed.

ghost use Rattle.std.specs.Prelude.{◌≡◌, ◌+◌, ◌==◌, map};
ghost use Rattle.std.specs.List.{list_all, list_any};
ghost use Rattle.policy_tree.specs.Meaning.{set_tree};
ghost use Rattle.policy_tree.specs.Trees.{cond_tree, expr_tree};
ghost use Rattle.policy_eval.specs.Values.{compared};
ghost use Rattle.wait_classes.specs.Attributes.{differs, is_attribute, is_moved, is_positive, known, lowers, moves};
ghost use Rattle.wait_classes.specs.Attributes.{moves_or_leaves, never, raises, sets_it};

use policy_tree::variables::{THREAD_ATTRIBUTES, WEIGHT};
use policy_tree::{Cmp, Cond, Expr, SetList};

/// Where assignments are to move an attribute: down to its lower end, or up to its upper one.
#[derive(Clone, Copy)]
pub enum Aim {
    Down { low: i64 },
    Up { high: i64 },
}

/// Whether the condition never has that outcome where the attribute has that value.
pub fn never(attribute: u32, value: i64, outcome: bool, cond: &Cond) -> bool
    ensures { result ≡ never attribute value outcome (cond_tree cond.now) }
{
    let mut rest = cond;
    loop {
        match rest {
            Cond::Always => return !outcome,
            Cond::Test(how, left, right) => {
                let left = known(attribute, value, left);
                return differs(outcome, *how, left, known(attribute, value, right));
            }
            Cond::Not(inner) => return never(attribute, value, !outcome, inner),
            Cond::And(left, right) => {
                if never(attribute, value, outcome, right) == outcome {
                    return outcome;
                }
                rest = left;
            }
            Cond::Or(left, right) => {
                if never(attribute, value, outcome, right) != outcome {
                    return !outcome;
                }
                rest = left;
            }
        }
    }
}

/// What is known of the expression's value there.
fn known(attribute: u32, value: i64, expr: &Expr) -> Option<i64>
    ensures { result ≡ known attribute value (expr_tree expr.now) }
{
    match expr {
        Expr::Num(number) => Some(*number),
        Expr::Var(at) => {
            if is_variable(attribute, *at) {
                Some(value)
            } else {
                None
            }
        }
        Expr::Neg(_) => None,
        Expr::Add(_, _) | Expr::Sub(_, _) | Expr::Mul(_, _) => None,
    }
}

/// Whether two known values don't compare so.
fn differs(outcome: bool, how: Cmp, left: Option<i64>, right: Option<i64>) -> bool
    ensures { result ≡ differs outcome how left right }
{
    match (left, right) {
        (Some(left), Some(right)) => {
            let holds = compared(how, left, right);
            if outcome { !holds } else { holds }
        }
        (Some(_), None) => false,
        (None, _) => false,
    }
}

/// The outcome of a comparison.
fn compared(how: Cmp, left: i64, right: i64) -> bool
    ensures { result ≡ compared how left right }
{
    match how {
        Cmp::Eq => left == right,
        Cmp::Ne => left != right,
        Cmp::Lt => left < right,
        Cmp::Le => left <= right,
        Cmp::Gt => left > right,
        Cmp::Ge => left >= right,
    }
}

/// Whether the variable is the attribute.
fn is_variable(attribute: u32, at: u32) -> bool
    ensures { result ≡ (at == THREAD_ATTRIBUTES + attribute) }
{
    THREAD_ATTRIBUTES <= at && at - THREAD_ATTRIBUTES == attribute
}

/// Whether the expression is the attribute.
fn is_attribute(attribute: u32, expr: &Expr) -> bool
    ensures { result ≡ is_attribute attribute (expr_tree expr.now) }
{
    match expr {
        Expr::Var(at) => is_variable(attribute, *at),
        Expr::Num(_) | Expr::Neg(_) => false,
        Expr::Add(_, _) | Expr::Sub(_, _) | Expr::Mul(_, _) => false,
    }
}

/// Whether the expression is a number greater than 0, or the thread's weight.
fn is_positive(expr: &Expr) -> bool
    ensures { result ≡ is_positive (expr_tree expr.now) }
{
    match expr {
        Expr::Num(number) => 0 < *number,
        Expr::Var(at) => *at == WEIGHT,
        Expr::Neg(_) => false,
        Expr::Add(_, _) | Expr::Sub(_, _) | Expr::Mul(_, _) => false,
    }
}

/// Whether the value is less than the attribute, or at most its lower end.
fn lowers(attribute: u32, low: i64, expr: &Expr) -> bool
    ensures { result ≡ lowers attribute low (expr_tree expr.now) }
{
    match expr {
        Expr::Num(number) => *number <= low,
        Expr::Sub(left, right) => is_attribute(attribute, left) && is_positive(right),
        Expr::Var(_) | Expr::Neg(_) => false,
        Expr::Add(_, _) | Expr::Mul(_, _) => false,
    }
}

/// Whether the value is greater than the attribute, or at least its upper end.
fn raises(attribute: u32, high: i64, expr: &Expr) -> bool
    ensures { result ≡ raises attribute high (expr_tree expr.now) }
{
    match expr {
        Expr::Num(number) => high <= *number,
        Expr::Add(left, right) => is_attribute(attribute, left) && is_positive(right),
        Expr::Var(_) | Expr::Neg(_) => false,
        Expr::Sub(_, _) | Expr::Mul(_, _) => false,
    }
}

/// Whether an assignment of the value moves the attribute there, or leaves it at that end.
fn moves(attribute: u32, aim: Aim, expr: &Expr) -> bool
    ensures { result ≡ moves attribute aim (expr_tree expr.now) }
{
    match aim {
        Aim::Down { low } => lowers(attribute, low, expr),
        Aim::Up { high } => raises(attribute, high, expr),
    }
}

/// Whether there are assignments to the attribute, and each moves it there.
pub fn is_moved(attribute: u32, aim: Aim, sets: &SetList) -> bool
    ensures { result ≡ is_moved attribute aim (map set_tree sets.now) }
{
    is_set(attribute, sets) && each_moves(attribute, aim, sets)
}

/// Whether there is an assignment to the attribute.
fn is_set(attribute: u32, sets: &SetList) -> bool
    ensures { result ≡ list_any (sets_it attribute) (map set_tree sets.now) }
{
    for at in 0..sets.len() {
        if sets.get(at).attr == attribute {
            return true;
        }
    }
    false
}

/// Whether each assignment to the attribute moves it there.
fn each_moves(attribute: u32, aim: Aim, sets: &SetList) -> bool
    ensures { result ≡ list_all (moves_or_leaves attribute aim) (map set_tree sets.now) }
{
    for at in 0..sets.len() {
        let set = sets.get(at);
        if set.attr == attribute && !moves(attribute, aim, &set.expr) {
            return false;
        }
    }
    true
}
