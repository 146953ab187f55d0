//! Rows that are derived from the numbered rows of a system.

ghost use Rattle.std.specs.Prelude.{◌≡◌, ◌^◌, ◌<◌, ◌≤◌, ◌<ℤ◌, ◌+ℤ◌, ◌*ℤ◌, [], ◌∷◌, pos, length, All, IfOk};
ghost use Rattle.linear_solver.specs.Elimination.{IsSmall, coef_of, has_no_term, kept, sum_of, sum_without};
ghost use Rattle.linear_solver.specs.Shapes.{HasShape, IsKept};
ghost use Rattle.linear_solver.specs.Sums.{IsAtMost, added};

use crate::factors::{MAX_NUMBER, added, gcd, weighted, within};
use linear_cert::SolveMemory;
use lists::Items;
use std::alloc::Global;

/// The greatest multiplier that elimination makes.
pub const MAX_MULTIPLIER: u64 = 1 << 48;

/// The most rows that a list of elimination has.
pub const MAX_DERIVED: usize = 1024;

/// A row, and how it is the sum of the numbered rows.
#[derive(Drop)]
pub struct Derived {
    /// The coefficient of each variable.
    pub coefs: Items<i64>,
    /// The right side.
    pub bound: i64,
    /// The multiplier of each numbered row, none of them negative.
    pub mults: Items<i64>,
}

/// How many numbers a derived row has.
#[derive(Clone, Copy)]
pub struct Shape {
    /// The number of variables.
    pub variables: u32,
    /// The number of numbered rows.
    pub numbered: u32,
}

/// What two rows give.
#[derive(Drop)]
pub enum Combined {
    /// A number that is out of range.
    TooLarge,
    /// No more than that 0 is at most some number.
    LeftOut,
    /// Their sum.
    Kept(Derived),
}

/// The coefficient of the variable.
pub fn coefficient(row: &Derived, variable: u32) -> i64
    requires { variable < length row.now.coefs }
    ensures { result ≡ coef_of variable row.now }
{
    *row.coefs.get(variable)
}

/// Whether no variable has a coefficient but 0.
pub fn has_no_term(coefs: &[i64]) -> bool
    ensures { result ≡ has_no_term coefs.now }
{
    coefs.iter().all(|coef| *coef == 0)
}

/// The sum of two rows in which the variable has different signs, so that it goes.
pub fn combine(
    alloc: Global,
    shape: Shape,
    variable: u32,
    p: &Derived,
    q: &Derived,
) -> Result<Combined, SolveMemory>
    requires known { variable < shape.variables }
    requires p { HasShape shape p.now }
    requires q { HasShape shape q.now }
    requires positive { pos 0 <ℤ coef_of variable p.now }
    requires negative { coef_of variable q.now <ℤ pos 0 }
    ensures { IfOk result (IsKept (sum_without variable p.now q.now)) }
{
    let a = coefficient(p, variable).unsigned_abs();
    let b = coefficient(q, variable).unsigned_abs();
    let divisor = gcd(a, b);
    sum_of(alloc, shape, b / divisor, a / divisor, p, q)
}

/// `x` times the first row and `y` times the second, with what it was made from, if its numbers stay in range.
pub fn sum_of(
    alloc: Global,
    shape: Shape,
    x: u64,
    y: u64,
    p: &Derived,
    q: &Derived,
) -> Result<Combined, SolveMemory>
    requires p { HasShape shape p.now }
    requires q { HasShape shape q.now }
    requires x { x ≤ MAX_NUMBER }
    requires y { y ≤ MAX_NUMBER }
    ensures { IfOk result (IsKept (sum_of x y p.now q.now)) }
{
    let coefs = match added(
        alloc,
        x,
        y,
        p.coefs.as_slice(),
        q.coefs.as_slice(),
        MAX_NUMBER,
    )? {
        Some(coefs) => coefs,
        None => return Ok(Combined::TooLarge),
    };
    let bound = weighted(p.bound, x, q.bound, y);
    if bound >= 0 && has_no_term(coefs.as_slice()) {
        return Ok(Combined::LeftOut);
    }
    with_multipliers(alloc, x, y, p, q, coefs, bound)
}

// The sum whose coefficients and bound are known, once it isn't left out.
fn with_multipliers(
    alloc: Global,
    x: u64,
    y: u64,
    p: &Derived,
    q: &Derived,
    coefs: Items<i64>,
    bound: i128,
) -> Result<Combined, SolveMemory>
    requires x { x ≤ MAX_NUMBER }
    requires y { y ≤ MAX_NUMBER }
    requires p { IsSmall p.now }
    requires q { IsSmall q.now }
    requires same { length p.now.mults ≡ length q.now.mults }
    requires few { length p.now.mults < 2 ^ 32 }
    requires coefs { (coefs ≡ added x y p.now.coefs q.now.coefs) × All (IsAtMost MAX_NUMBER) coefs }
    requires bound { bound ≡ p.now.bound *ℤ pos x +ℤ q.now.bound *ℤ pos y }
    requires kept { kept (sum_of x y p.now q.now) ≡ sum_of x y p.now q.now ∷ [] }
    ensures { IfOk result (IsKept (sum_of x y p.now q.now)) }
{
    let bound = match within(bound, MAX_NUMBER) {
        Some(bound) => bound,
        None => return Ok(Combined::TooLarge),
    };
    match added(
        alloc,
        x,
        y,
        p.mults.as_slice(),
        q.mults.as_slice(),
        MAX_MULTIPLIER,
    )? {
        Some(mults) => Ok(Combined::Kept(Derived {
            coefs,
            bound,
            mults,
        })),
        None => Ok(Combined::TooLarge),
    }
}
