//! The step of Floyd and Warshall on the distances.

ghost use Rattle.std.specs.Prelude.{◌≡◌, ◌<◌, ◌+ℤ◌, FitsSigned, int_lt, OnOk};
ghost use Rattle.std.specs.Int.{w128};
ghost use Rattle.difference_solver.specs.Distances.{Puts};
ghost use Rattle.difference_solver.specs.Passing.{AreSmall, Passes, PassesFrom, passed};

use crate::distance::Distance;
use crate::distances::Distances;
use std::alloc::{AllocError, Global};

/// Lets each distance go over the node in the middle, where that is less.
pub fn pass(alloc: Global, distances: &mut Distances, middle: usize) -> Result<(), AllocError>
    requires middle { middle < distances.old.size }
    requires small { AreSmall middle distances.old }
    ensures { OnOk result (Passes middle distances.old distances.new) }
{
    for from in 0..distances.size() {
        pass_from(alloc, distances, from, middle)?;
    }
    Ok(())
}

// The distances from one node.
fn pass_from(
    alloc: Global,
    distances: &mut Distances,
    from: usize,
    middle: usize,
) -> Result<(), AllocError>
    requires from { from < distances.old.size }
    requires middle { middle < distances.old.size }
    requires small { AreSmall middle distances.old }
    ensures { OnOk result (PassesFrom from middle distances.old distances.new) }
{
    for to in 0..distances.size() {
        pass_between(alloc, distances, from, to, middle)?;
    }
    Ok(())
}

// The distance from one node to another.
fn pass_between(
    alloc: Global,
    distances: &mut Distances,
    from: usize,
    to: usize,
    middle: usize,
) -> Result<(), AllocError>
    requires from { from < distances.old.size }
    requires to { to < distances.old.size }
    requires middle { middle < distances.old.size }
    requires small { AreSmall middle distances.old }
    ensures { let distance = passed middle distances.old from to in
        OnOk result (Puts distances.old distances.new from to distance) }
{
    if from == middle || to == middle {
        return Ok(());
    }
    let (first, second) = (distances.get(from, middle), distances.get(middle, to));
    if are_less(first, second, distances.get(from, to)) {
        let distance = Distance::joined(alloc, first, second)?;
        distances.put(from, to, distance);
    }
    Ok(())
}

// Whether one distance behind another is less than a third.
fn are_less(first: &Distance, second: &Distance, third: &Distance) -> bool
    requires { FitsSigned w128 (first.now.bound +ℤ second.now.bound) }
    ensures { result ≡ int_lt (first.now.bound +ℤ second.now.bound) third.now.bound }
{
    first.bound + second.bound < third.bound
}
