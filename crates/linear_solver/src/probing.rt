//! A probe of a box: elimination that keeps to what the box leaves open, and a walk back through its
//! lists.

ghost use Rattle.std.specs.Prelude.{IfOk, IfSome};
ghost use Rattle.linear_form.specs.System.{IsSystem};
ghost use Rattle.linear_solver.specs.Insides.{IsInside, IsPartOf, IsProbe};

use crate::choice::{Look, look_over};
use crate::derived::Derived;
use crate::ends::low_ends;
use crate::probe::{Reduced, reduce};
use crate::walk_back::walk;
use linear_cert::{MultList, SolveMemory};
use linear_form::{Bound, Point, Row};
use std::alloc::{AllocError, Global};

/// What a probe finds.
#[derive(Drop)]
pub enum Probe {
    /// A leaf why no solution lies in the box.
    Leaf(MultList),
    /// A solution in the box.
    Point(Point),
    /// Neither.
    Nothing,
}

/// Probes a box. `sums` is how many sums may be made, and `picks` how many values may be tried.
pub fn probe_box(
    alloc: Global,
    bounds: &[Bound],
    rows: &[Row],
    sums: &mut u32,
    picks: u32,
) -> Result<Probe, SolveMemory>
    requires { IsSystem (record { bounds = bounds.now; rows = rows.now }) }
    ensures { IfOk result (IsProbe bounds.now rows.now) }
{
    match reduce(alloc, bounds, rows, sums)? {
        Reduced::Leaf(leaf) => Ok(Probe::Leaf(leaf)),
        Reduced::Passed => Ok(Probe::Nothing),
        Reduced::Lists(lists) => Ok(walked(alloc, bounds, rows, lists.as_slice(), picks)?),
    }
}

fn walked(
    alloc: Global,
    bounds: &[Bound],
    rows: &[Row],
    lists: &[Vec<Derived>],
    picks: u32,
) -> Result<Probe, AllocError>
    requires { IsSystem (record { bounds = bounds.now; rows = rows.now }) }
    ensures { IfOk result (IsProbe bounds.now rows.now) }
{
    let mut values = low_ends(alloc, bounds)?.into_vec();
    let mut picks = picks;
    if walk(
        bounds,
        lists,
        values.as_mut_slice(),
        bounds.len(),
        &mut picks,
    ) {
        tested(alloc, bounds, rows, values.as_slice())
    } else {
        Ok(Probe::Nothing)
    }
}

// The point of these values, if it lies in the box and every row holds there.
fn tested(
    alloc: Global,
    bounds: &[Bound],
    rows: &[Row],
    values: &[i64],
) -> Result<Probe, AllocError>
    requires { IsSystem (record { bounds = bounds.now; rows = rows.now }) }
    ensures { IfOk result (IsProbe bounds.now rows.now) }
{
    let point = match box_of(alloc, bounds, values)? {
        Some(point) => point,
        None => return Ok(Probe::Nothing),
    };
    match look_over(point.as_slice(), rows) {
        Look::Implied => Ok(Probe::Point(Point {
            vals: low_ends(alloc, point.as_slice())?,
        })),
        Look::Refuted(_) | Look::Open(_) => Ok(Probe::Nothing),
    }
}

// The box of one point, if it lies in this one.
fn box_of(alloc: Global, bounds: &[Bound], values: &[i64]) -> Result<Option<Vec<Bound>>, AllocError>
    ensures { IfOk result (λ point. IfSome point (λ point. IsInside bounds.now point.items)) }
{
    let mut point = Vec::with_capacity(alloc, bounds.len())?;
    for (variable, range) in bounds.iter().enumerate() {
        match range_at(*range, values, variable) {
            Some(value) => point.push(value)?,
            None => return Ok(None),
        }
    }
    Ok(Some(point))
}

// The range of one value, if it lies in this one.
fn range_at(range: Bound, values: &[i64], variable: usize) -> Option<Bound>
    ensures { IfSome result (IsPartOf range) }
{
    let value = match values.get(variable) {
        Some(value) => *value,
        None => return None,
    };
    if range.lo <= value && value <= range.hi {
        Some(Bound {
            lo: value,
            hi: value,
        })
    } else {
        None
    }
}
