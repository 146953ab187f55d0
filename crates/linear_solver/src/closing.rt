//! Leaves of sums that hold nowhere in a box.

ghost use Rattle.std.specs.Prelude.{◌+◌, ◌*◌, ◌<◌, ◌≤◌, length, IfOk, IfSome};
ghost use Rattle.linear_form.specs.System.{IsSystem};
ghost use Rattle.linear_cert.specs.Right.{IsRightLeaf};
ghost use Rattle.linear_solver.specs.Follows.{IsSumRow};

use crate::derived::{Combined, Derived, coefficient, has_no_term, sum_of};
use crate::first::{first_row, shape_of};
use crate::leaf::leaf_of;
use linear_cert::{MultList, SolveMemory};
use linear_form::{Bound, Row};
use sched_base::{MAX_ROWS, MAX_VARIABLES};
use std::alloc::Global;

/// The leaf of a sum that holds nowhere in the box: the rows of the ranges take its variables out, one after
/// another. None where that passes a size.
pub fn shut_leaf(
    alloc: Global,
    bounds: &[Bound],
    rows: &[Row],
    sum: Derived,
) -> Result<Option<MultList>, SolveMemory>
    requires system { IsSystem (record { bounds = bounds.now; rows = rows.now }) }
    requires sum { IsSumRow bounds.now rows.now sum }
    ensures { IfOk result (λ leaf. IfSome leaf (IsRightLeaf bounds.now rows.now)) }
{
    let mut sum = sum;
    for variable in 0..bounds.len() as u32 {
        match without_term(alloc, bounds, rows, variable, sum)? {
            Some(next) => sum = next,
            None => return Ok(None),
        }
    }
    if sum.bound >= 0 || !has_no_term(sum.coefs.as_slice()) {
        return Ok(None);
    }
    Ok(Some(leaf_of(alloc, sum.mults.as_slice())?))
}

// The sum and the row of a range that takes the variable out at the end where the sum is least.
fn without_term(
    alloc: Global,
    bounds: &[Bound],
    rows: &[Row],
    variable: u32,
    sum: Derived,
) -> Result<Option<Derived>, SolveMemory>
    requires system { IsSystem (record { bounds = bounds.now; rows = rows.now }) }
    requires known { variable < length bounds.now }
    requires sum { IsSumRow bounds.now rows.now sum }
    ensures { IfOk result (λ next. IfSome next (IsSumRow bounds.now rows.now)) }
{
    let coef = coefficient(&sum, variable);
    if coef == 0 {
        return Ok(Some(sum));
    }
    let shape = shape_of(bounds, rows);
    let number = closing_row(rows.len() as u32, variable, coef);
    let range_row = first_row(alloc, shape, bounds, rows, number)?;
    match sum_of(alloc, shape, 1, coef.unsigned_abs(), &sum, &range_row)? {
        Combined::Kept(next) => Ok(Some(next)),
        Combined::LeftOut | Combined::TooLarge => Ok(None),
    }
}

// The number of the row of a range that takes out a variable with this coefficient.
fn closing_row(rows: u32, variable: u32, coef: i64) -> u32
    requires rows { rows ≤ MAX_ROWS }
    requires variable { variable < MAX_VARIABLES }
    ensures { result < rows + 2 * variable + 2 }
{
    rows + 2 * variable + if coef > 0 { 0 } else { 1 }
}
