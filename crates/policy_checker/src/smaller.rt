//! Points that are made smaller, so that who reads one reads small numbers.

ghost use Rattle.std.specs.Prelude.{◌≤◌, IfOk, unsigned_abs};
ghost use Rattle.linear_form.specs.Solution.{Solves};
ghost use Rattle.policy_checker.specs.Smaller.{AreNearer, IsSmaller};

use linear_form::{Point, System};
use lists::Items;
use std::alloc::{AllocError, Global};

/// A solution of the system with no value farther from 0 than in that one.
///
/// Neighbouring values go towards 0 by the same steps, first many together and then each alone, as far as the system
/// holds. So the solution is small. It need not be the smallest.
pub(crate) fn smaller(alloc: Global, system: &System, point: Point) -> Result<Point, AllocError>
    requires { Solves system.now.bounds system.now.rows point.vals }
    ensures { IfOk result (λ smaller. IsSmaller system.now point.vals smaller.vals) }
{
    let count = system.bounds().len();
    let mut smaller = point;
    for first in 0..count {
        smaller = with_runs(alloc, system, smaller, first, count)?;
    }
    Ok(smaller)
}

/// The same, for the runs of values that begin with the first one and end before the count.
fn with_runs(
    alloc: Global,
    system: &System,
    point: Point,
    first: usize,
    count: usize,
) -> Result<Point, AllocError>
    requires { Solves system.now.bounds system.now.rows point.vals }
    ensures { IfOk result (λ smaller. IsSmaller system.now point.vals smaller.vals) }
{
    let mut smaller = point;
    for last in (first..count).rev() {
        smaller = with_run(alloc, system, smaller, first, last)?;
    }
    Ok(smaller)
}

/// The same, for the run of values from the first to the last.
fn with_run(
    alloc: Global,
    system: &System,
    point: Point,
    first: usize,
    last: usize,
) -> Result<Point, AllocError>
    requires { Solves system.now.bounds system.now.rows point.vals }
    ensures { IfOk result (λ smaller. IsSmaller system.now point.vals smaller.vals) }
{
    let digits = digits_of(&point);
    let mut smaller = point;
    for digit in (0..digits).rev() {
        let tried = moved(alloc, &smaller, first, last, 1 << digit)?;
        smaller = better(system, smaller, tried);
    }
    Ok(smaller)
}

/// The second point where it solves the system, else the first.
fn better(system: &System, point: Point, tried: Point) -> Point
    requires solves { Solves system.now.bounds system.now.rows point.vals }
    requires nearer { AreNearer tried.vals point.vals }
    ensures { IsSmaller system.now point.vals result.vals }
{
    if system.satisfies(&tried) {
        tried
    } else {
        point
    }
}

/// The most binary digits that a value of the point has, at most 63.
fn digits_of(point: &Point) -> u32
    ensures { result ≤ 63 }
{
    let mut digits = 0;
    for value in point.vals.as_slice() {
        digits = digits
            .max(64 - value.unsigned_abs().leading_zeros())
            .min(63);
    }
    digits
}

/// The point with the values from the first to the last nearer to 0 by the step.
fn moved(
    alloc: Global,
    point: &Point,
    first: usize,
    last: usize,
    step: i64,
) -> Result<Point, AllocError>
    ensures { IfOk result (λ moved. AreNearer moved.vals point.now.vals) }
{
    let mut vals = Vec::new(alloc);
    let values = point.vals.as_slice();
    for at in 0..values.len() {
        let value = values[at];
        vals.push(moved_value(value, step, first <= at && at <= last))?;
    }
    Ok(Point {
        vals: Items::from_vec(vals),
    })
}

/// The value nearer to 0 by the step, if it moves and doesn't pass 0, else the value.
fn moved_value(value: i64, step: i64, moves: bool) -> i64
    ensures { unsigned_abs result ≤ unsigned_abs value }
{
    if moves && 0 < step && step <= value {
        return value - step;
    }
    if moves && 0 < step && value <= -step {
        return value + step;
    }
    value
}
