//! What a row may say over a box, the ranges of all variables.

ghost use Rattle.std.specs.Prelude.{◌≡◌, ◌↔◌, ◌≤◌, ◌^◌, ◌*ℤ◌, length, unsigned_abs, IfOk, IsTrue, All};
ghost use Rattle.linear_form.specs.System.{IsBound, IsRow, IsTerm};
ghost use Rattle.linear_solver.specs.Boxes.{IsImplied, IsRefuted, greatest, greatest_term, least, least_term, low_ends};

use linear_form::{Bound, Row, Term};
use lists::Items;
use sched_base::MAX_VARIABLES;
use std::alloc::{AllocError, Global};

/// What the left side of a row may be over a box.
#[derive(Clone, Copy)]
pub struct Ends {
    /// Its least value.
    pub low: i128,
    /// Its greatest value.
    pub high: i128,
}

/// The ends of the left side over the box.
pub fn ends_of(bounds: &[Bound], terms: &[Term]) -> Ends
    requires few { length terms.now ≤ MAX_VARIABLES }
    requires bounds { All IsBound bounds.now }
    requires terms { All (IsTerm (length bounds.now)) terms.now }
    ensures low { result.low ≡ least bounds.now terms.now }
    ensures high { result.high ≡ greatest bounds.now terms.now }
    ensures small_low { unsigned_abs result.low ≤ 2 ^ 90 }
    ensures small_high { unsigned_abs result.high ≤ 2 ^ 90 }
{
    let mut low = 0;
    let mut high = 0;
    for term in terms {
        low += least_term(bounds, *term);
        high += greatest_term(bounds, *term);
    }
    Ends { low, high }
}

/// The least value of the left side over the box.
pub fn least(bounds: &[Bound], terms: &[Term]) -> i128
    requires few { length terms.now ≤ MAX_VARIABLES }
    requires bounds { All IsBound bounds.now }
    requires terms { All (IsTerm (length bounds.now)) terms.now }
    ensures value { result ≡ least bounds.now terms.now }
    ensures small { unsigned_abs result ≤ 2 ^ 90 }
{
    let mut sum = 0;
    for term in terms {
        sum += least_term(bounds, *term);
    }
    sum
}

/// Its greatest value.
pub fn greatest(bounds: &[Bound], terms: &[Term]) -> i128
    requires few { length terms.now ≤ MAX_VARIABLES }
    requires bounds { All IsBound bounds.now }
    requires terms { All (IsTerm (length bounds.now)) terms.now }
    ensures value { result ≡ greatest bounds.now terms.now }
    ensures small { unsigned_abs result ≤ 2 ^ 90 }
{
    let mut sum = 0;
    for term in terms {
        sum += greatest_term(bounds, *term);
    }
    sum
}

fn least_term(bounds: &[Bound], term: Term) -> i128
    requires bounds { All IsBound bounds.now }
    requires term { IsTerm (length bounds.now) term }
    ensures value { result ≡ least_term bounds.now term }
    ensures small { unsigned_abs result ≤ 2 ^ 83 }
{
    let range = bounds[term.var as usize];
    product(term.coef, if term.coef > 0 { range.lo } else { range.hi })
}

fn greatest_term(bounds: &[Bound], term: Term) -> i128
    requires bounds { All IsBound bounds.now }
    requires term { IsTerm (length bounds.now) term }
    ensures value { result ≡ greatest_term bounds.now term }
    ensures small { unsigned_abs result ≤ 2 ^ 83 }
{
    let range = bounds[term.var as usize];
    product(term.coef, if term.coef > 0 { range.hi } else { range.lo })
}

fn product(coef: i64, value: i64) -> i128
    requires coef { unsigned_abs coef ≤ 2 ^ 42 }
    requires value { unsigned_abs value ≤ 2 ^ 41 }
    ensures value { result ≡ coef *ℤ value }
    ensures small { unsigned_abs result ≤ 2 ^ 83 }
{
    i128::from(coef) * i128::from(value)
}

/// Whether the row holds nowhere in the box.
pub fn is_refuted(bounds: &[Bound], row: &Row) -> bool
    requires few { length bounds.now ≤ MAX_VARIABLES }
    requires bounds { All IsBound bounds.now }
    requires row { IsRow (length bounds.now) row.now }
    ensures { IsTrue result ↔ IsRefuted bounds.now row.now }
{
    i128::from(row.bound) < least(bounds, row.terms.as_slice())
}

/// Whether the row holds all over the box.
pub fn is_implied(bounds: &[Bound], row: &Row) -> bool
    requires few { length bounds.now ≤ MAX_VARIABLES }
    requires bounds { All IsBound bounds.now }
    requires row { IsRow (length bounds.now) row.now }
    ensures { IsTrue result ↔ IsImplied bounds.now row.now }
{
    greatest(bounds, row.terms.as_slice()) <= i128::from(row.bound)
}

/// The point of the least values.
pub fn low_ends(alloc: Global, bounds: &[Bound]) -> Result<Items<i64>, AllocError>
    requires { length bounds.now ≤ MAX_VARIABLES }
    ensures { IfOk result (λ vals. vals ≡ low_ends bounds.now) }
{
    let mut vals = Vec::with_capacity(alloc, bounds.len())?;
    for range in bounds {
        vals.push(range.lo)?;
    }
    Ok(Items::from_vec(vals))
}
