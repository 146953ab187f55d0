//! The distances that the ranges of the variables give.

ghost use Rattle.std.specs.Prelude.{◌≡◌, ◌≤◌, length, All, IfOk};
ghost use Rattle.linear_form.specs.System.{IsBound, IsSystem};
ghost use Rattle.sched_base.specs.declared.limits.TheConstants.{MAX_ROWS, MAX_VARIABLES};
ghost use Rattle.difference_solver.specs.Ranges.{HasRanges, lower_distance, range_distance, upper_distance};

use crate::distance::Distance;
use crate::distances::Distances;
use linear_form::{Bound, System};
use std::alloc::{AllocError, Global};

/// The table of the distances that the ranges give.
pub fn range_distances(alloc: Global, system: &System) -> Result<Distances, AllocError>
    ensures ranges { IfOk result (HasRanges system.now.bounds (length system.now.rows)) }
    ensures system { IsSystem system.now }
{
    let (bounds, rows) = (system.bounds(), system.rows().len() as u32);
    let size = bounds.len() + 1;
    let mut items = Vec::new(alloc);
    for place in 0..size * size {
        let (from, to) = (place / size, place % size);
        items.push(range_distance(alloc, bounds, rows, from, to)?)?;
    }
    Ok(Distances::new(size, items))
}

// From one node to another over the zero.
fn range_distance(
    alloc: Global,
    bounds: &[Bound],
    rows: u32,
    from: usize,
    to: usize,
) -> Result<Distance, AllocError>
    requires few_variables { length bounds.now ≤ MAX_VARIABLES }
    requires few_rows { rows ≤ MAX_ROWS }
    requires fit { All IsBound bounds.now }
    requires from { from ≤ length bounds.now }
    requires to { to ≤ length bounds.now }
    ensures { IfOk result (λ distance. distance ≡ range_distance bounds.now rows from to) }
{
    if from == to {
        return Ok(Distance::none(alloc));
    }
    let up = upper_distance(alloc, bounds, rows, from)?;
    let down = lower_distance(alloc, bounds, rows, to)?;
    Distance::joined(alloc, &up, &down)
}

// From a node to the zero: its greatest value.
fn upper_distance(
    alloc: Global,
    bounds: &[Bound],
    rows: u32,
    node: usize,
) -> Result<Distance, AllocError>
    requires few_variables { length bounds.now ≤ MAX_VARIABLES }
    requires few_rows { rows ≤ MAX_ROWS }
    requires node { node ≤ length bounds.now }
    ensures { IfOk result (λ distance. distance ≡ upper_distance bounds.now rows node) }
{
    if node == bounds.len() {
        return Ok(Distance::none(alloc));
    }
    Distance::of_row(alloc, rows + 2 * node as u32 + 1, bounds[node].hi)
}

// From the zero to a node: minus its least value.
fn lower_distance(
    alloc: Global,
    bounds: &[Bound],
    rows: u32,
    node: usize,
) -> Result<Distance, AllocError>
    requires few_variables { length bounds.now ≤ MAX_VARIABLES }
    requires few_rows { rows ≤ MAX_ROWS }
    requires fit { All IsBound bounds.now }
    requires node { node ≤ length bounds.now }
    ensures { IfOk result (λ distance. distance ≡ lower_distance bounds.now rows node) }
{
    if node == bounds.len() {
        return Ok(Distance::none(alloc));
    }
    Distance::of_row(alloc, rows + 2 * node as u32, -bounds[node].lo)
}
