//! The first list of elimination: the numbered rows, each with multiplier 1 for itself.

ghost use Rattle.std.specs.Prelude.{◌≡◌, ◌<◌, map, All, IfOk};
ghost use Rattle.std.specs.List.{range_with_len};
ghost use Rattle.linear_form.specs.System.{IsSystem};
ghost use Rattle.linear_solver.specs.Elimination.{coefs_in, first_list, first_row, numbered_count, once};
ghost use Rattle.linear_solver.specs.Shapes.{HasShape, shape_of};

use crate::derived::{Derived, Shape};
use linear_cert::{Column, SolveMemory, entry};
use linear_form::{Bound, Row};
use lists::Items;
use std::alloc::{AllocError, Global};

/// How many numbers each derived row of the system has.
pub fn shape_of(bounds: &[Bound], rows: &[Row]) -> Shape
    requires { IsSystem (record { bounds = bounds.now; rows = rows.now }) }
    ensures { result ≡ shape_of bounds.now rows.now }
{
    Shape {
        variables: bounds.len() as u32,
        numbered: (rows.len() + 2 * bounds.len()) as u32,
    }
}

/// The numbered rows.
pub fn first_list(
    alloc: Global,
    bounds: &[Bound],
    rows: &[Row],
) -> Result<Vec<Derived>, SolveMemory>
    requires { IsSystem (record { bounds = bounds.now; rows = rows.now }) }
    ensures list { IfOk result (λ list. list.items ≡ first_list bounds.now rows.now) }
    ensures shape { IfOk result (λ list. All (HasShape (shape_of bounds.now rows.now)) list.items) }
{
    let shape = shape_of(bounds, rows);
    let mut list = Vec::new(alloc);
    for number in 0..shape.numbered {
        list.push(first_row(alloc, shape, bounds, rows, number)?)?;
    }
    Ok(list)
}

/// The row of this number as elimination begins with it: one of the system, or one that says an end of a range.
pub fn first_row(
    alloc: Global,
    shape: Shape,
    bounds: &[Bound],
    rows: &[Row],
    number: u32,
) -> Result<Derived, AllocError>
    requires system { IsSystem (record { bounds = bounds.now; rows = rows.now }) }
    requires shape { shape ≡ shape_of bounds.now rows.now }
    requires numbered { number < numbered_count bounds.now rows.now }
    ensures row { IfOk result (λ row. row ≡ first_row bounds.now rows.now number) }
    ensures shape { IfOk result (HasShape shape) }
{
    Ok(Derived {
        coefs: coefficients(alloc, bounds, rows, number)?,
        bound: entry(bounds, rows, number, Column::RightSide),
        mults: once(alloc, number, shape.numbered)?,
    })
}

fn coefficients(
    alloc: Global,
    bounds: &[Bound],
    rows: &[Row],
    number: u32,
) -> Result<Items<i64>, AllocError>
    requires system { IsSystem (record { bounds = bounds.now; rows = rows.now }) }
    requires numbered { number < numbered_count bounds.now rows.now }
    ensures { IfOk result (λ coefs. coefs ≡ coefs_in bounds.now rows.now number) }
{
    let mut coefs = Vec::with_capacity(alloc, bounds.len())?;
    for variable in 0..bounds.len() as u32 {
        coefs.push(entry(bounds, rows, number, Column::Variable(variable)))?;
    }
    Ok(Items::from_vec(coefs))
}

// The multipliers of one row alone.
fn once(alloc: Global, number: u32, count: u32) -> Result<Items<i64>, AllocError>
    ensures { IfOk result (λ mults. mults ≡ map (once number) (range_with_len 0 count)) }
{
    let mut mults = Vec::with_capacity(alloc, count as usize)?;
    for other in 0..count {
        mults.push(once_at(number, other))?;
    }
    Ok(Items::from_vec(mults))
}

fn once_at(number: u32, other: u32) -> i64
    ensures { result ≡ once number other }
{
    if other == number { 1 } else { 0 }
}
