//! The shape of a system: whether its rows are differences, and how many points its ranges have.

ghost use Rattle.std.specs.Prelude.{◌≡◌, ◌↔◌, ◌<◌, ◌^◌, IsTrue, All, SomeIff};
ghost use Rattle.linear_form.specs.Difference.{IsDifference, IsDifferenceRow};
ghost use Rattle.linear_form.specs.Points.{points_of, size_of};
ghost use Rattle.linear_form.specs.System.{IsBound};

use crate::form::{Bound, Row};

/// Whether each row is of the form of differences.
pub fn are_differences(rows: &[Row]) -> bool
    ensures { IsTrue result ↔ IsDifference rows.now }
{
    for row in rows {
        if !is_difference(row) {
            return false;
        }
    }
    true
}

// Whether the row has no term, a variable or minus a variable, or a variable minus another.
#[tactic(auto, unfolding(crate::specs::Difference::AreDifference))]
fn is_difference(row: &Row) -> bool
    ensures { IsTrue result ↔ IsDifferenceRow row.now }
{
    match row.terms.as_slice() {
        [] => true,
        [only] => only.coef == 1 || only.coef == -1,
        [first, second] => first.coef == 1 && second.coef == -1
            || first.coef == -1 && second.coef == 1,
        _ => false,
    }
}

/// How many lists of one value from each range there are, if that fits.
pub fn points_of(bounds: &[Bound]) -> Option<u128>
    requires { All IsBound bounds.now }
    ensures { SomeIff result (points_of bounds.now < 2 ^ 128) (points_of bounds.now) }
{
    let mut points: u128 = 1;
    for bound in bounds {
        match points.checked_mul(u128::from(size_of(*bound))) {
            Some(more) => points = more,
            None => return None,
        }
    }
    Some(points)
}

// How many values the range has.
fn size_of(bound: Bound) -> u64
    requires { IsBound bound }
    ensures { result ≡ size_of bound }
{
    bound.hi.abs_diff(bound.lo) + 1
}
