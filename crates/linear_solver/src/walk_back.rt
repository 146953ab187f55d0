//! A walk back through the lists of an elimination, which picks a value for one variable after another,
//! the last first. Nothing is promised of what it finds but that it ends: each point is tested.

ghost use Rattle.std.specs.Prelude.{◌≡◌, ◌≤◌, pos, slice_index_or};

use crate::derived::Derived;
use crate::stride::stride_of;
use linear_form::Bound;

// How many values are tried of what a list leaves of a range.
const PICKS: u32 = 5;

/// Sets the values of the first `left` variables, and says whether it came to an end. `picks` is the number
/// of values that may still be tried.
pub fn walk(
    bounds: &[Bound],
    lists: &[Vec<Derived>],
    values: &mut [i64],
    left: usize,
    picks: &mut u32,
) -> bool
    ensures { picks.new ≤ picks.old }
{
    if left == 0 {
        return true;
    }
    let variable = left - 1;
    let range = range_left(bounds, lists, values, variable);
    let stride = match stride_of(lists, values, variable) {
        Some(stride) => stride,
        None => return false,
    };
    for pick in 0..PICKS {
        if let Some(value) = stride.picked(range, pick) {
            if *picks == 0 {
                return false;
            }
            *picks -= 1;
            if variable < values.len() {
                values[variable] = value;
            }
            if walk(bounds, lists, values, variable, picks) {
                return true;
            }
        }
    }
    false
}

// What the rows with the variable leave of its range, once the later variables are set.
fn range_left(bounds: &[Bound], lists: &[Vec<Derived>], values: &[i64], variable: usize) -> Bound {
    let mut range = match bounds.get(variable) {
        Some(range) => *range,
        None => Bound { lo: 0, hi: 0 },
    };
    if let Some(list) = lists.get(variable) {
        for row in list {
            range = narrowed(range, row, values, variable);
        }
    }
    range
}

// What one row leaves of a range.
fn narrowed(range: Bound, row: &Derived, values: &[i64], variable: usize) -> Bound {
    let coefs = row.coefs.as_slice();
    let coef = coefficient_at(coefs, variable);
    let rest = i128::from(row.bound).saturating_sub(value_past(coefs, values, variable));
    if coef > 0 {
        let most = divided(rest, coef.unsigned_abs());
        Bound {
            lo: range.lo,
            hi: range.hi.min(most),
        }
    } else if coef < 0 {
        let least = divided(rest, coef.unsigned_abs()).saturating_neg();
        Bound {
            lo: range.lo.max(least),
            hi: range.hi,
        }
    } else {
        range
    }
}

/// The coefficient of the variable, 0 where the row has none.
pub fn coefficient_at(coefs: &[i64], variable: usize) -> i64
    ensures { slice_index_or coefs.now variable (pos 0) ≡ result }
{
    match coefs.get(variable) {
        Some(coef) => *coef,
        None => 0,
    }
}

/// The sum of a row's terms of the variables past this one.
pub(crate) fn value_past(coefs: &[i64], values: &[i64], variable: usize) -> i128 {
    let mut sum: i128 = 0;
    for (place, coef) in coefs.iter().enumerate() {
        if place > variable && place < values.len() {
            let value = i128::from(*coef).saturating_mul(i128::from(values[place]));
            sum = sum.saturating_add(value);
        }
    }
    sum
}

// The quotient, rounded down and brought into 64 bits.
fn divided(number: i128, by: u64) -> i64 {
    if by == 0 {
        return 0;
    }
    let by = u128::from(by);
    let quotient = number.unsigned_abs() / by;
    let most = (quotient.min(MOST)) as i64;
    if number >= 0 {
        most
    } else if number.unsigned_abs() % by == 0 {
        -most
    } else {
        -most - 1
    }
}

// More than any value.
const MOST: u128 = 1 << 62;
