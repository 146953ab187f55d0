//! The linear form of a sum.

ghost use Rattle.std.specs.Prelude.{◌≡◌, ℕ, ℤ, ◌+ℤ◌, unsigned_abs, ◌<◌, ◌^◌, MatchOption, true, false};
ghost use Rattle.policy_tree.specs.Trees.{ExprTree};
ghost use Rattle.policy_types.specs.Expressions.{joined};
ghost use Rattle.policy_types.specs.Forms.{has_small_form, is_small};
ghost use Rattle.policy_types.specs.Products.{IsForm, IsKnown, IsMoved, IsProduct, IsSize, with_sign};

use crate::products::Product;
use sched_base::{MAX_COEFFICIENT, MAX_VARIABLES};

/// The variables, and one behind them for what is none.
pub(crate) const SLOTS: usize = MAX_VARIABLES + 1;

/// The constant and the coefficient of each variable by its number. All of them are small.
#[derive(Clone, Copy)]
pub(crate) struct Form {
    pub(crate) constant: i64,
    pub(crate) coefficients: [i64; SLOTS],
}

impl Form {
    /// The form of a term, and none where that isn't small.
    pub(crate) fn of_product(product: Product) -> Option<Form>
        requires known { IsKnown product.variable }
        ensures { (e : ExprTree) → IsProduct product e →
            MatchOption result (has_small_form e ≡ false) (λ f. IsForm f e) }
    {
        let nothing = Form {
            constant: 0,
            coefficients: [0; SLOTS],
        };
        nothing.moved(product.variable, product.negative, product.size)
    }

    /// The form with a term added or taken away, and none where that isn't small.
    pub(crate) fn joined(self, minus: bool, product: Product) -> Option<Form>
        requires known { IsKnown product.variable }
        ensures { (l r : ExprTree) → IsForm self l → IsProduct product r →
            MatchOption result (has_small_form (joined minus l r) ≡ false)
            (λ f. IsForm f (joined minus l r)) }
    {
        self.moved(product.variable, product.negative != minus, product.size)
    }

    /// The form with a number times a variable added or taken away, and none where that isn't small.
    fn moved(self, at: Option<u32>, negative: bool, size: Option<u64>) -> Option<Form>
        requires known { IsKnown at }
        ensures { (l e : ExprTree) (n : ℕ) → IsForm self l → IsSize size n →
            IsMoved at (with_sign negative n) l e →
            MatchOption result (has_small_form e ≡ false) (λ f. IsForm f e) }
    {
        let mut form = self;
        match at {
            Some(at) => {
                form.coefficients[at as usize] = moved(
                    self.coefficients[at as usize],
                    negative,
                    size,
                )?;
            }
            None => form.constant = moved(self.constant, negative, size)?,
        }
        Some(form)
    }
}

/// A small number with another added or taken away, and none where that isn't small.
fn moved(from: i64, negative: bool, by: Option<u64>) -> Option<i64>
    ensures { (n : ℕ) → is_small from ≡ true → IsSize by n →
        MatchOption result (is_small (from +ℤ with_sign negative n) ≡ false)
        (λ x. (x ≡ from +ℤ with_sign negative n) ×
        (is_small (from +ℤ with_sign negative n) ≡ true)) }
{
    match by {
        Some(size) => small(i128::from(from) + with_sign(negative, size)),
        None => None,
    }
}

/// The number with a sign before it, or as it is.
fn with_sign(negative: bool, size: u64) -> i128
    ensures value { result ≡ with_sign negative size }
    ensures bound { unsigned_abs result < 2 ^ 64 }
{
    if negative {
        -i128::from(size)
    } else {
        i128::from(size)
    }
}

/// The number where it is small.
fn small(value: i128) -> Option<i64>
    ensures { MatchOption result (is_small value ≡ false)
        (λ x. (x ≡ value) × (is_small value ≡ true)) }
{
    if value.unsigned_abs() <= MAX_COEFFICIENT as u128 {
        Some(value as i64)
    } else {
        None
    }
}
