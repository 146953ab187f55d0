//! The sums of rows in which a variable has different signs, as far as a box leaves them open.

ghost use Rattle.std.specs.Prelude.{◌<◌, length, All, IfOk};
ghost use Rattle.linear_form.specs.System.{IsSystem};
ghost use Rattle.linear_solver.specs.Follows.{IsSumRow};
ghost use Rattle.linear_solver.specs.Probes.{AreSums};

use crate::closing::shut_leaf;
use crate::derived::{Combined, Derived, coefficient, combine};
use crate::first::shape_of;
use linear_cert::{MultList, SolveMemory};
use linear_form::{Bound, Row};
use std::alloc::Global;

/// The most rows of a list. Twice or half as many decide the same; the time falls with it.
pub const MAX_PROBED: usize = 64;

/// A variable that is eliminated from rows over a box.
#[derive(Clone, Copy)]
pub struct Stage<'a> {
    /// The ranges of the variables.
    pub bounds: &'a [Bound],
    /// The rows of the system.
    pub rows: &'a [Row],
    /// The variable.
    pub variable: u32,
}

/// Sums of rows over a box.
#[derive(Drop)]
pub enum Sums {
    /// A leaf that one of them gives.
    Shut(MultList),
    /// Those that the box leaves open.
    More(Vec<Derived>),
    /// Nothing.
    Full,
}

/// The sums of a list, if there aren't too many, or a leaf that one of them gives. `effort` is the number of sums
/// that may be made.
pub fn open_sums(
    alloc: Global,
    stage: &Stage,
    list: &[Derived],
    effort: &mut u32,
) -> Result<Sums, SolveMemory>
    requires system { IsSystem (record { bounds = stage.now.bounds.now; rows = stage.now.rows.now }) }
    requires known { stage.now.variable < length stage.now.bounds.now }
    requires list { All (IsSumRow stage.now.bounds.now stage.now.rows.now) list.now }
    ensures { IfOk result (AreSums stage.now.bounds.now stage.now.rows.now) }
{
    let mut sums = Vec::new(alloc);
    for p in list {
        match open_sums_with(alloc, stage, list, p, sums, effort)? {
            Sums::More(more) => sums = more,
            Sums::Shut(leaf) => return Ok(Sums::Shut(leaf)),
            Sums::Full => return Ok(Sums::Full),
        }
    }
    Ok(Sums::More(sums))
}

// The sums so far and those of one more row.
fn open_sums_with(
    alloc: Global,
    stage: &Stage,
    list: &[Derived],
    p: &Derived,
    sums: Vec<Derived>,
    effort: &mut u32,
) -> Result<Sums, SolveMemory>
    requires system { IsSystem (record { bounds = stage.now.bounds.now; rows = stage.now.rows.now }) }
    requires known { stage.now.variable < length stage.now.bounds.now }
    requires list { All (IsSumRow stage.now.bounds.now stage.now.rows.now) list.now }
    requires p { IsSumRow stage.now.bounds.now stage.now.rows.now p.now }
    requires sums { All (IsSumRow stage.now.bounds.now stage.now.rows.now) sums.items }
    ensures { IfOk result (AreSums stage.now.bounds.now stage.now.rows.now) }
{
    let mut sums = sums;
    for q in list {
        match open_sum(alloc, stage, p, q, sums, effort)? {
            Sums::More(more) => sums = more,
            Sums::Shut(leaf) => return Ok(Sums::Shut(leaf)),
            Sums::Full => return Ok(Sums::Full),
        }
    }
    Ok(Sums::More(sums))
}

// The sums so far and that of two more rows, if the variable has different signs there.
fn open_sum(
    alloc: Global,
    stage: &Stage,
    p: &Derived,
    q: &Derived,
    sums: Vec<Derived>,
    effort: &mut u32,
) -> Result<Sums, SolveMemory>
    requires system { IsSystem (record { bounds = stage.now.bounds.now; rows = stage.now.rows.now }) }
    requires known { stage.now.variable < length stage.now.bounds.now }
    requires p { IsSumRow stage.now.bounds.now stage.now.rows.now p.now }
    requires q { IsSumRow stage.now.bounds.now stage.now.rows.now q.now }
    requires sums { All (IsSumRow stage.now.bounds.now stage.now.rows.now) sums.items }
    ensures { IfOk result (AreSums stage.now.bounds.now stage.now.rows.now) }
{
    let Stage {
        bounds,
        rows,
        variable,
    } = *stage;
    if coefficient(p, variable) <= 0 || coefficient(q, variable) >= 0 {
        return Ok(Sums::More(sums));
    }
    if *effort == 0 {
        return Ok(Sums::Full);
    }
    *effort -= 1;
    match combine(alloc, shape_of(bounds, rows), variable, p, q)? {
        Combined::TooLarge => Ok(Sums::Full),
        Combined::LeftOut => Ok(Sums::More(sums)),
        Combined::Kept(sum) => with_open(alloc, bounds, rows, sums, sum),
    }
}

// The sums so far and one more, if the box leaves it open.
fn with_open(
    alloc: Global,
    bounds: &[Bound],
    rows: &[Row],
    sums: Vec<Derived>,
    sum: Derived,
) -> Result<Sums, SolveMemory>
    requires system { IsSystem (record { bounds = bounds.now; rows = rows.now }) }
    requires sums { All (IsSumRow bounds.now rows.now) sums.items }
    requires sum { IsSumRow bounds.now rows.now sum }
    ensures { IfOk result (AreSums bounds.now rows.now) }
{
    let (low, high) = ends_of(bounds, sum.coefs.as_slice());
    let bound = i128::from(sum.bound);
    if high <= bound {
        return Ok(Sums::More(sums));
    }
    if bound < low {
        return match shut_leaf(alloc, bounds, rows, sum)? {
            Some(leaf) => Ok(Sums::Shut(leaf)),
            None => Ok(Sums::Full),
        };
    }
    if sums.len() >= MAX_PROBED {
        return Ok(Sums::Full);
    }
    let mut sums = sums;
    sums.push(sum)?;
    Ok(Sums::More(sums))
}

// The least and the greatest value of a sum's left side over the box.
fn ends_of(bounds: &[Bound], coefs: &[i64]) -> (i128, i128) {
    let mut low: i128 = 0;
    let mut high: i128 = 0;
    for (coef, range) in coefs.iter().zip(bounds.iter()) {
        let at_low = i128::from(*coef).saturating_mul(i128::from(range.lo));
        let at_high = i128::from(*coef).saturating_mul(i128::from(range.hi));
        low = low.saturating_add(at_low.min(at_high));
        high = high.saturating_add(at_low.max(at_high));
    }
    (low, high)
}
