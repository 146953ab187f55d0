//! The linear form of a term: a number times at most one variable.

ghost use Rattle.std.specs.Prelude.{◌≡◌, ◌*◌, ◌&&◌, ℕ, pos, MatchOption, true, Some, None, ⊤};
ghost use Rattle.policy_tree.specs.Trees.{ExprTree, number, variable, negation, times};
ghost use Rattle.policy_eval.specs.Forms.{has_reference};
ghost use Rattle.policy_types.specs.Forms.{has_small_form};
ghost use Rattle.policy_types.specs.Products.{IsKnown, IsProduct, IsScaledBy, IsSize};

use sched_base::MAX_COEFFICIENT;

/// A number times a variable, or a number alone.
#[derive(Clone, Copy)]
pub(crate) struct Product {
    /// Whether the number is taken with a sign before it.
    pub(crate) negative: bool,
    /// The number, and none where it is too great for its type.
    pub(crate) size: Option<u64>,
    /// The variable.
    pub(crate) variable: Option<u32>,
}

impl Product {
    /// A number alone.
    pub(crate) fn of_number(value: u64) -> Product
        ensures is { IsProduct result (number (pos value)) }
        ensures variable { result.variable ≡ None }
    {
        Product {
            negative: false,
            size: Some(value),
            variable: None,
        }
    }

    /// A variable alone.
    pub(crate) fn of_variable(at: u32) -> Product
        ensures is { IsProduct result (variable at) }
        ensures variable { result.variable ≡ Some at }
    {
        Product {
            negative: false,
            size: Some(1),
            variable: Some(at),
        }
    }

    /// The negation.
    pub(crate) fn negated(self) -> Product
        ensures is { (e : ExprTree) → IsProduct self e → IsProduct result (negation e) }
        ensures variable { result.variable ≡ self.variable }
    {
        Product {
            negative: !self.negative,
            size: self.size,
            variable: self.variable,
        }
    }

    /// The product of both, where at most one has a variable.
    pub(crate) fn times(self, other: Product) -> Option<Product>
        ensures is { (l r : ExprTree) → IsProduct self l → IsProduct other r →
            MatchOption result ((has_reference l && has_reference r) ≡ true)
            (λ p. IsProduct p (times l r)) }
        ensures known { IsKnown self.variable → IsKnown other.variable →
            MatchOption result ⊤ (λ p. IsKnown p.variable) }
    {
        match (self.variable, other.variable) {
            (Some(_), Some(_)) => None,
            (Some(at), None) => Some(self.scaled(other, Some(at))),
            (None, variable) => Some(self.scaled(other, variable)),
        }
    }

    /// The product of both numbers, times that variable.
    fn scaled(self, other: Product, variable: Option<u32>) -> Product
        ensures { IsScaledBy self other variable result }
    {
        Product {
            negative: self.negative != other.negative,
            size: size_of_product(self.size, other.size),
            variable,
        }
    }

    /// Whether the number is one that a coefficient or a constant may be.
    pub(crate) fn is_small(self) -> bool
        requires { IsKnown self.variable }
        ensures { (e : ExprTree) → IsProduct self e → result ≡ has_small_form e }
    {
        match self.size {
            Some(size) => size <= MAX_COEFFICIENT as u64,
            None => false,
        }
    }
}

/// The product of two numbers, either of them none where it is too great.
fn size_of_product(left: Option<u64>, right: Option<u64>) -> Option<u64>
    ensures { (m n : ℕ) → IsSize left m → IsSize right n → IsSize result (m * n) }
{
    match (left, right) {
        (Some(0), _) => Some(0),
        (_, Some(0)) => Some(0),
        (Some(left), Some(right)) => left.checked_mul(right),
        _ => None,
    }
}
