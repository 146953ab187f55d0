//! The value of a row at a point, exact in 128 bits.

ghost use Rattle.std.specs.Prelude.{◌≡◌, ◌↔◌, ◌*◌, ◌^◌, ◌≤◌, length, unsigned_abs, IsTrue, All};
ghost use Rattle.linear_form.specs.Solution.{LiesWithin, RowHolds, left_side, term_value};
ghost use Rattle.linear_form.specs.System.{IsRow, IsTerm};

use crate::form::{Bound, Row, Term};
use sched_base::{MAX_ROW_COEFFICIENT, MAX_VARIABLES};

/// Whether each value lies in its range.
pub fn all_within(bounds: &[Bound], vals: &[i64]) -> bool
    requires { length vals.now ≡ length bounds.now }
    ensures { IsTrue result ↔ LiesWithin bounds.now vals.now }
{
    for (variable, bound) in bounds.iter().enumerate() {
        if vals[variable] < bound.lo || bound.hi < vals[variable] {
            return false;
        }
    }
    true
}

/// Whether each row holds.
pub fn all_hold(rows: &[Row], vals: &[i64]) -> bool
    requires few { length vals.now ≤ MAX_VARIABLES }
    requires rows { All (IsRow (length vals.now)) rows.now }
    ensures { IsTrue result ↔ All (RowHolds vals.now) rows.now }
{
    for row in rows {
        if !holds(row, vals) {
            return false;
        }
    }
    true
}

fn holds(row: &Row, vals: &[i64]) -> bool
    requires few { length vals.now ≤ MAX_VARIABLES }
    requires row { IsRow (length vals.now) row.now }
    ensures { IsTrue result ↔ RowHolds vals.now row.now }
{
    left_side(row.terms.as_slice(), vals) <= i128::from(row.bound)
}

// At most `MAX_VARIABLES` values of terms add up within 128 bits.
fn left_side(terms: &[Term], vals: &[i64]) -> i128
    requires few { length terms.now ≤ MAX_VARIABLES }
    requires terms { All (IsTerm (length vals.now)) terms.now }
    ensures { result ≡ left_side vals.now terms.now }
{
    let mut sum = 0;
    for term in terms {
        sum += term_value(*term, vals);
    }
    sum
}

fn term_value(term: Term, vals: &[i64]) -> i128
    requires { IsTerm (length vals.now) term }
    ensures value { result ≡ term_value vals.now term }
    ensures small { unsigned_abs result ≤ MAX_ROW_COEFFICIENT * 2 ^ 63 }
{
    i128::from(term.coef) * i128::from(vals[term.var as usize])
}
