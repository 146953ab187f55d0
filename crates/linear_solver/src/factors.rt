//! Whole numbers: greatest common divisors, and sums of two numbers times factors.

ghost use Rattle.std.specs.Prelude.{◌≡◌, ◌^◌, ◌<◌, ◌≤◌, ◌+ℤ◌, ◌*ℤ◌, pos, length, unsigned_abs, All, IfOk, SomeIff};
ghost use Rattle.linear_solver.specs.Sums.{AddedWithin, IsAtMost, gcd};

use lists::Items;
use std::alloc::{AllocError, Global};

/// The greatest magnitude of a coefficient or a bound that elimination makes.
pub const MAX_NUMBER: u64 = 1 << 62;

/// The greatest common divisor (Euclid).
pub fn gcd(a: u64, b: u64) -> u64
    requires a { 0 < a }
    requires b { 0 < b }
    ensures value { result ≡ gcd a b }
    ensures positive { 0 < result }
{
    let mut greater = a;
    let mut less = b;
    while less > 0 {
        let rest = greater % less;
        greater = less;
        less = rest;
    }
    greater
}

/// Two numbers times factors, added up.
pub fn weighted(left: i64, x: u64, right: i64, y: u64) -> i128
    requires left { unsigned_abs left ≤ MAX_NUMBER }
    requires x { x ≤ MAX_NUMBER }
    requires right { unsigned_abs right ≤ MAX_NUMBER }
    requires y { y ≤ MAX_NUMBER }
    ensures { result ≡ left *ℤ pos x +ℤ right *ℤ pos y }
{
    product(left, x) + product(right, y)
}

fn product(number: i64, by: u64) -> i128
    requires number { unsigned_abs number ≤ MAX_NUMBER }
    requires by { by ≤ MAX_NUMBER }
    ensures value { result ≡ number *ℤ pos by }
    ensures small { unsigned_abs result ≤ 2 ^ 124 }
{
    i128::from(number) * i128::from(by)
}

/// The same, if its magnitude is at most `most`.
pub fn weighted_within(left: i64, x: u64, right: i64, y: u64, most: u64) -> Option<i64>
    requires left { unsigned_abs left ≤ MAX_NUMBER }
    requires x { x ≤ MAX_NUMBER }
    requires right { unsigned_abs right ≤ MAX_NUMBER }
    requires y { y ≤ MAX_NUMBER }
    requires most { most ≤ MAX_NUMBER }
    ensures { let sum = left *ℤ pos x +ℤ right *ℤ pos y in SomeIff result (IsAtMost most sum) sum }
{
    within(weighted(left, x, right, y), most)
}

/// The number, if its magnitude is at most `most`.
pub fn within(number: i128, most: u64) -> Option<i64>
    requires { most ≤ MAX_NUMBER }
    ensures { SomeIff result (IsAtMost most number) number }
{
    if number.unsigned_abs() <= u128::from(most) {
        Some(number as i64)
    } else {
        None
    }
}

/// Two lists of numbers times factors, added up place by place; `None` where a sum is over `most`.
pub fn added(
    alloc: Global,
    x: u64,
    y: u64,
    left: &[i64],
    right: &[i64],
    most: u64,
) -> Result<Option<Items<i64>>, AllocError>
    requires few { length left.now < 2 ^ 32 }
    requires same { length left.now ≡ length right.now }
    requires x { x ≤ MAX_NUMBER }
    requires y { y ≤ MAX_NUMBER }
    requires left { All (IsAtMost MAX_NUMBER) left.now }
    requires right { All (IsAtMost MAX_NUMBER) right.now }
    requires most { most ≤ MAX_NUMBER }
    ensures { IfOk result (AddedWithin most x y left.now right.now) }
{
    let mut sums = Vec::with_capacity(alloc, left.len())?;
    for (place, number) in left.iter().enumerate() {
        match weighted_within(*number, x, right[place], y, most) {
            Some(sum) => sums.push(sum)?,
            None => return Ok(None),
        }
    }
    Ok(Some(Items::from_vec(sums)))
}
