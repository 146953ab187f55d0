//! Which values of a variable leave a whole number for the one below it, by an equation of the two. Nothing is promised
//! of them but that they lie in their range: each point that the walk finds is tested.

ghost use Rattle.std.specs.Prelude.{◌≤ℤ◌, IfSome};

use crate::derived::Derived;
use crate::factors::MAX_NUMBER;
use crate::walk_back::{coefficient_at, value_past};
use linear_form::Bound;

/// Values at equal distances.
#[derive(Clone, Copy)]
pub struct Stride {
    /// One of them.
    from: i64,
    /// How far two neighbours are apart.
    by: u64,
}

/// All values.
const ALL: Stride = Stride { from: 0, by: 1 };

// Two numbers of 64 bits are divided by each other's rest fewer times than this, until no rest is left.
const MOST_DIVISIONS: u32 = 93;

/// The values of a variable that an equation with the one below it leaves, once the later ones are set. There is none
/// where that equation has no whole solution.
pub(crate) fn stride_of(lists: &[Vec<Derived>], values: &[i64], variable: usize) -> Option<Stride> {
    if variable == 0 {
        return Some(ALL);
    }
    let below = variable - 1;
    let list = match lists.get(below) {
        Some(list) => list.as_slice(),
        None => return Some(ALL),
    };
    for row in list {
        let coefs = row.coefs.as_slice();
        let ours = coefficient_at(coefs, variable);
        let theirs = coefficient_at(coefs, below);
        if ours != 0 && theirs != 0 && has_opposite(list, row) {
            let rest = i128::from(row.bound).saturating_sub(value_past(coefs, values, variable));
            return stride_in(ours, theirs.unsigned_abs(), rest);
        }
    }
    Some(ALL)
}

// Whether the rows have one more that says the opposite, so that both are an equation.
fn has_opposite(list: &[Derived], row: &Derived) -> bool {
    list.iter().any(|other| is_opposite(row, other))
}

fn is_opposite(row: &Derived, other: &Derived) -> bool {
    i128::from(row.bound) == -i128::from(other.bound)
        && are_opposite(row.coefs.as_slice(), other.coefs.as_slice())
}

fn are_opposite(coefs: &[i64], others: &[i64]) -> bool {
    coefs
        .iter()
        .zip(others.iter())
        .all(|(one, other)| i128::from(*one) == -i128::from(*other))
}

// The values that, times the coefficient, leave the rest a multiple of the modulus.
fn stride_in(coef: i64, modulus: u64, rest: i128) -> Option<Stride> {
    let (common, inverse) = divided_out(remainder(i128::from(coef), modulus), modulus);
    if common == 0 {
        return Some(ALL);
    }
    if remainder(rest, common) != 0 {
        return None;
    }
    let by = modulus / common;
    let wanted = remainder(rest, modulus) / common;
    let first = u128::from(remainder(inverse, by)).saturating_mul(u128::from(wanted));
    Some(Stride {
        from: held(remainder_of(first, by)),
        by,
    })
}

// The greatest common divisor of the number and the modulus, and a number that times the first is it, but for multiples
// of the modulus: Euclid's way, with one of the factors kept.
fn divided_out(number: u64, modulus: u64) -> (u64, i128) {
    let mut rests = (modulus, number);
    let mut factors: (i128, i128) = (0, 1);
    for _division in 0..MOST_DIVISIONS {
        if rests.1 != 0 {
            let quotient = i128::from(rests.0 / rests.1);
            let next = factors.0.saturating_sub(quotient.saturating_mul(factors.1));
            rests = (rests.1, rests.0 % rests.1);
            factors = (factors.1, next);
        }
    }
    (rests.0, factors.0)
}

// What is left of the number behind the greatest multiple that isn't above it.
fn remainder(number: i128, by: u64) -> u64 {
    let rest = remainder_of(number.unsigned_abs(), by);
    if number >= 0 || rest == 0 {
        rest
    } else {
        by.saturating_sub(rest)
    }
}

fn remainder_of(number: u128, by: u64) -> u64 {
    if by == 0 {
        return 0;
    }
    (number % u128::from(by)) as u64
}

// The number, or the most that is held. No modulus is greater than that.
fn held(number: u64) -> i64 {
    number.min(MAX_NUMBER) as i64
}

impl Stride {
    /// One of the values that are tried in a range: its ends, its middle, and the neighbours of its ends. There is none
    /// where it isn't in the range.
    pub fn picked(self, range: Bound, pick: u32) -> Option<i64>
        ensures inside { IfSome result (λ value. range.lo ≤ℤ value × value ≤ℤ range.hi) }
    {
        let value = match pick {
            0 => self.first(range.lo),
            1 => self.last(range.hi),
            2 => self.last(range.lo.midpoint(range.hi)),
            3 => self.first(range.lo).saturating_add(held(self.by)),
            _ => self.last(range.hi).saturating_sub(held(self.by)),
        };
        if range.lo <= value && value <= range.hi {
            Some(value)
        } else {
            None
        }
    }

    // The least value that isn't below this one.
    fn first(self, least: i64) -> i64 {
        let more = remainder(i128::from(self.from) - i128::from(least), self.by);
        least.saturating_add(held(more))
    }

    // The greatest value that isn't above this one.
    fn last(self, most: i64) -> i64 {
        let less = remainder(i128::from(most) - i128::from(self.from), self.by);
        most.saturating_sub(held(less))
    }
}
