//! What the rows of a system say of distances.

ghost use Rattle.std.specs.Prelude.{◌≡◌, ◌↔◌, ◌+◌, ◌<◌, ◌<ℤ◌, IsTrue, length, Some, slice_get, All, OnOk};
ghost use Rattle.linear_form.specs.Difference.{IsDifference, IsDifferenceRow};
ghost use Rattle.linear_form.specs.System.{IsRow, IsSystem};
ghost use Rattle.difference_solver.specs.Meaning.{IsEdge, Keeps};
ghost use Rattle.difference_solver.specs.Shortening.{Shortens};

use crate::distance::Distance;
use crate::distances::Distances;
use linear_form::{Row, System};
use std::alloc::{AllocError, Global};

/// Puts the rows' distances where they are less.
pub fn shorten_by_rows(
    alloc: Global,
    distances: &mut Distances,
    system: &System,
) -> Result<(), AllocError>
    requires system { IsSystem system.now }
    requires differences { IsDifference system.now.rows }
    requires size { distances.old.size ≡ length system.now.bounds + 1 }
    ensures shortens { OnOk result
        (Shortens system.now.bounds system.now.rows distances.old distances.new) }
    ensures keeps { OnOk result
        (All (Keeps (length system.now.bounds) distances.new) system.now.rows) }
{
    for number in 0..system.row_count() {
        shorten_by_row(alloc, distances, system, number)?;
    }
    Ok(())
}

// Puts the distance of one row.
fn shorten_by_row(
    alloc: Global,
    distances: &mut Distances,
    system: &System,
    number: u32,
) -> Result<(), AllocError>
    requires system { IsSystem system.now }
    requires differences { IsDifference system.now.rows }
    requires size { distances.old.size ≡ length system.now.bounds + 1 }
    requires number { number < length system.now.rows }
    ensures shortens { OnOk result
        (Shortens system.now.bounds system.now.rows distances.old distances.new) }
    ensures keeps { OnOk result ((row : Row) → slice_get system.now.rows number ≡ Some row →
        Keeps (length system.now.bounds) distances.new row) }
{
    let row = &system.rows()[number as usize];
    let (from, to) = ends(row, system.bounds().len());
    if is_less(row, distances.get(from, to)) {
        let distance = Distance::of_row(alloc, number, row.bound)?;
        distances.put(from, to, distance);
    }
    Ok(())
}

// Whether the row's bound is less than the distance.
fn is_less(row: &Row, distance: &Distance) -> bool
    ensures { IsTrue result ↔ row.now.bound <ℤ distance.now.bound }
{
    i128::from(row.bound) < distance.bound
}

// The nodes of which the row bounds the difference.
#[tactic(auto, unfolding(linear_form::specs::Difference::AreDifference))]
fn ends(row: &Row, zero: usize) -> (usize, usize)
    requires row { IsRow zero row.now }
    requires difference { IsDifferenceRow row.now }
    ensures { IsEdge zero row.now.terms result.0 result.1 }
{
    match row.terms.as_slice() {
        [] => (zero, zero),
        [only] if only.coef == 1 => (only.var as usize, zero),
        [only] => (zero, only.var as usize),
        [first, second] if first.coef == 1 => (first.var as usize, second.var as usize),
        [first, second] => (second.var as usize, first.var as usize),
        _ => unreachable!(),
    }
}
