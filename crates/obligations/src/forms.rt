//! Linear forms, and the rows that they give.

ghost use Rattle.std.specs.Prelude.{◌≡◌, ◌≤◌, ◌<◌, ℤ, ◌+ℤ◌, ◌*ℤ◌, unsigned_abs, IfOk, IfSome};
ghost use Rattle.policy_tree.specs.Trees.{expr_tree, minus};
ghost use Rattle.policy_eval.specs.Forms.{IsLinear, IsSmall, coefficient_of, constant_of};
ghost use Rattle.policy_eval.specs.Resolved.{IsWeightRange};
ghost use Rattle.obligations.specs.CodeForms.{FitsRow, IsDifferenceForm, IsForm, form_seen, only_weight};
ghost use Rattle.obligations.specs.Forms.{LinearForm, at_most, at_weight, form_of, opposite, plain_form};

use linear_form::{Row, Term};
use lists::Items;
use policy_tree::variables::WEIGHT;
use policy_tree::{Expr, Load};
use sched_base::{MAX_VARIABLES, MAX_WEIGHT};
use std::alloc::{AllocError, Global};

/// The constant and the coefficient of each variable by its number.
#[derive(Clone, Copy)]
pub struct Form {
    constant: i64,
    coefficients: [i64; MAX_VARIABLES],
}

/// The constant of the expression's linear form.
fn constant(expr: &Expr) -> i64
    requires { IsLinear (expr_tree expr.now) }
    ensures value { result ≡ constant_of (expr_tree expr.now) }
    ensures small { IsSmall result }
{
    match expr {
        Expr::Num(number) => *number,
        Expr::Var(_) => 0,
        Expr::Neg(inner) => -constant(inner),
        Expr::Add(left, right) => constant(left) + constant(right),
        Expr::Sub(left, right) => constant(left) - constant(right),
        Expr::Mul(left, right) => constant(left) * constant(right),
    }
}

/// The coefficient of the variable in the expression's linear form.
fn coefficient(expr: &Expr, variable: u32) -> i64
    requires { IsLinear (expr_tree expr.now) }
    ensures value { result ≡ coefficient_of (expr_tree expr.now) variable }
    ensures small { IsSmall result }
{
    match expr {
        Expr::Num(_) => 0,
        Expr::Var(at) => i64::from(*at == variable),
        Expr::Neg(inner) => -coefficient(inner, variable),
        Expr::Add(left, right) => coefficient(left, variable) + coefficient(right, variable),
        Expr::Sub(left, right) => coefficient(left, variable) - coefficient(right, variable),
        Expr::Mul(left, right) => product_coefficient(
            constant(left),
            coefficient(right, variable),
            coefficient(left, variable),
            constant(right),
        ),
    }
}

/// The coefficient of a product: each side's constant times the other side's coefficient. One of the two is 0.
fn product_coefficient(
    left_constant: i64,
    right_coefficient: i64,
    left_coefficient: i64,
    right_constant: i64,
) -> i64
    requires first { IsSmall (left_constant *ℤ right_coefficient) }
    requires second { IsSmall (left_coefficient *ℤ right_constant) }
    requires sum { IsSmall (left_constant *ℤ right_coefficient +ℤ left_coefficient *ℤ right_constant) }
    ensures value { result ≡ left_constant *ℤ right_coefficient +ℤ left_coefficient *ℤ right_constant }
    ensures small { IsSmall result }
{
    product(left_constant, right_coefficient) + product(left_coefficient, right_constant)
}

/// A product that is small.
fn product(left: i64, right: i64) -> i64
    requires small { IsSmall (left *ℤ right) }
    ensures { result ≡ left *ℤ right }
{
    left * right
}

/// The form of the difference of two expressions, the weight of a thread being a number where all weigh the same.
pub fn form_of_difference(load: Load, left: &Expr, right: &Expr) -> Form
    requires load { IsWeightRange load }
    requires left { IsLinear (expr_tree left.now) }
    requires right { IsLinear (expr_tree right.now) }
    ensures form { IsForm result (form_of load (minus (expr_tree left.now) (expr_tree right.now))) }
    ensures fits { FitsRow (form_seen result) }
{
    let plain = plain_form(left, right);
    match only_weight(load) {
        Some(weight) => plain.at_weight(weight),
        None => plain,
    }
}

/// What all threads weigh, if they weigh the same.
fn only_weight(load: Load) -> Option<u32>
    requires load { IsWeightRange load }
    ensures value { result ≡ only_weight load }
    ensures light { IfSome result (λ weight. weight ≤ MAX_WEIGHT) }
{
    match load {
        Load::Count => Some(1),
        Load::Weight { lo, hi } => { if lo == hi { Some(lo) } else { None } }
    }
}

/// The form of the difference of two expressions as it stands.
fn plain_form(left: &Expr, right: &Expr) -> Form
    requires left { IsLinear (expr_tree left.now) }
    requires right { IsLinear (expr_tree right.now) }
    ensures form { IsForm result (plain_form (minus (expr_tree left.now) (expr_tree right.now))) }
    ensures small { IsDifferenceForm (form_seen result) }
{
    let mut coefficients = [0; MAX_VARIABLES];
    for variable in 0..MAX_VARIABLES {
        let at = variable as u32;
        coefficients[variable] = coefficient(left, at) - coefficient(right, at);
    }
    Form {
        constant: constant(left) - constant(right),
        coefficients,
    }
}

impl Form {
    /// The form with the number in place of the thread's weight.
    fn at_weight(self, weight: u32) -> Form
        requires weight { weight ≤ MAX_WEIGHT }
        requires small { IsDifferenceForm (form_seen self) }
        ensures { IsForm result (at_weight weight (form_seen self)) }
    {
        let mut coefficients = self.coefficients;
        coefficients[WEIGHT as usize] = 0;
        Form {
            constant: self.constant + self.coefficients[WEIGHT as usize] * i64::from(weight),
            coefficients,
        }
    }

    /// The form with the other sign.
    pub fn opposite(self) -> Form
        requires fits { FitsRow (form_seen self) }
        ensures form { (d : LinearForm) → IsForm self d → IsForm result (opposite d) }
        ensures fits { FitsRow (form_seen result) }
    {
        let mut coefficients = [0; MAX_VARIABLES];
        for variable in 0..MAX_VARIABLES {
            coefficients[variable] = -self.coefficients[variable];
        }
        Form {
            constant: -self.constant,
            coefficients,
        }
    }

    /// The row that says that the form is at most that number.
    pub fn at_most(&self, alloc: Global, most: i64) -> Result<Row, AllocError>
        requires fits { FitsRow (form_seen self.now) }
        requires most { unsigned_abs most ≤ 1 }
        ensures { (d : LinearForm) → IsForm self.now d → IfOk result (λ row. row ≡ at_most d most) }
    {
        let mut terms = Vec::new(alloc);
        for variable in 0..MAX_VARIABLES {
            let coef = self.coefficients[variable];
            if coef != 0 {
                terms.push(Term {
                    var: variable as u32,
                    coef,
                })?;
            }
        }
        Ok(Row {
            terms: Items::from_vec(terms),
            bound: most - self.constant,
        })
    }
}
