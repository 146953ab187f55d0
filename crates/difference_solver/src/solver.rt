//! The solver.

ghost use Rattle.std.specs.Prelude.{◌≡◌, ◌+◌, ◌<◌, length, FitsSigned, IfOk, OnOk};
ghost use Rattle.std.specs.Int.{w64};
ghost use Rattle.linear_form.specs.Difference.{IsDifference};
ghost use Rattle.linear_form.specs.Solution.{Solves};
ghost use Rattle.linear_form.specs.System.{IsSystem};
ghost use Rattle.difference_solver.specs.Closing.{IsAnswer, IsClosed, IsShortBehind, IsState};
ghost use Rattle.difference_solver.specs.Decides.{Decides, HoldsShallowly};

use crate::closing::pass;
use crate::decided::Decided;
use crate::distance::Distance;
use crate::distances::Distances;
use crate::ranges::range_distances;
use crate::rows::shorten_by_rows;
use linear_cert::{Cert, SolveMemory};
use linear_form::{Point, System};
use lists::Items;
use std::alloc::{AllocError, Global};

/// Decides the system, want of memory aside: a certificate shows that it has no solution, or a point
/// is one.
///
/// It takes the shortest distances between all values, over one value after another, as Floyd and
/// Warshall do. The certificate is one leaf: rows, each once, along a cycle of negative length.
pub fn decide_differences(alloc: Global, system: &System) -> Result<Decided, SolveMemory>
    requires { IsDifference system.now.rows }
    ensures decides { IfOk result (Decides system.now.bounds system.now.rows) }
    ensures shallow { IfOk result HoldsShallowly }
{
    let mut distances = range_distances(alloc, system)?;
    shorten_by_rows(alloc, &mut distances, system)?;
    match close(alloc, &mut distances, system)? {
        Some(node) => Ok(Decided::Holds(Cert::Leaf(distances.into_mults(node, node)))),
        None => Ok(Decided::Fails(point_of(alloc, &distances, system)?)),
    }
}

// Lets the distances go over each node, the zero first. Answers a node that lies below itself.
fn close(
    alloc: Global,
    distances: &mut Distances,
    system: &System,
) -> Result<Option<usize>, AllocError>
    requires system { IsSystem system.now }
    requires state { IsState system.now.bounds system.now.rows distances.old }
    requires short { IsShortBehind 0 (length system.now.bounds) distances.old }
    ensures state { OnOk result (IsState system.now.bounds system.now.rows distances.new) }
    ensures answer { IfOk result (IsAnswer (length system.now.bounds) distances.new) }
{
    let zero = system.bounds().len();
    for step in 0..zero + 1 {
        if let Some(node) = distances.node_below_itself() {
            return Ok(Some(node));
        }
        pass(alloc, distances, zero - step)?;
    }
    Ok(distances.node_below_itself())
}

// The point of which each value is its variable's distance to the zero.
fn point_of(alloc: Global, distances: &Distances, system: &System) -> Result<Point, AllocError>
    requires system { IsSystem system.now }
    requires state { IsState system.now.bounds system.now.rows distances.now }
    requires closed { IsClosed distances.now }
    ensures { IfOk result (λ point. Solves system.now.bounds system.now.rows point.vals) }
{
    let zero = system.bounds().len();
    let mut vals = Vec::new(alloc);
    for variable in 0..zero {
        vals.push(value_of(distances.get(variable, zero)))?;
    }
    Ok(Point {
        vals: Items::from_vec(vals),
    })
}

// The distance as a value.
fn value_of(distance: &Distance) -> i64
    requires { FitsSigned w64 distance.now.bound }
    ensures { result ≡ distance.now.bound }
{
    distance.bound as i64
}
