//! The distance of two values, with the rows that it comes from.

ghost use Rattle.std.specs.Prelude.{◌≡◌, ◌+◌, ◌+ℤ◌, ◌<◌, ◌^◌, length, IfOk, FitsSigned};
ghost use Rattle.std.specs.Int.{w128};
ghost use Rattle.difference_solver.specs.Distance.{distance_of_row, joined, no_distance};

use linear_cert::{Mult, MultList};
use lists::Items;
use std::alloc::{AllocError, Global};

/// At most how far one value lies above another.
#[derive(Drop)]
pub struct Distance {
    /// The number.
    pub bound: i128,
    /// Rows, each times 1, whose sum says so.
    pub mults: MultList,
}

impl Distance {
    /// That of a value to itself.
    pub fn none(alloc: Global) -> Distance
        ensures { result ≡ no_distance }
    {
        Distance {
            bound: 0,
            mults: Items::from_vec(Vec::new(alloc)),
        }
    }

    /// The one that the row with this number and this bound gives.
    pub fn of_row(alloc: Global, number: u32, bound: i64) -> Result<Distance, AllocError>
        ensures { IfOk result (λ distance. distance ≡ distance_of_row number bound) }
    {
        let mut mults = Vec::new(alloc);
        mults.push(Mult { row: number, by: 1 })?;
        Ok(Distance {
            bound: i128::from(bound),
            mults: Items::from_vec(mults),
        })
    }

    /// The distance over a value in the middle.
    pub fn joined(
        alloc: Global,
        first: &Distance,
        second: &Distance,
    ) -> Result<Distance, AllocError>
        requires fits { FitsSigned w128 (first.now.bound +ℤ second.now.bound) }
        requires short { length first.now.mults + length second.now.mults < 2 ^ 32 }
        ensures { IfOk result (λ distance. distance ≡ joined first.now second.now) }
    {
        let mut mults = Vec::new(alloc);
        mults.extend_from_slice(first.mults.as_slice())?;
        mults.extend_from_slice(second.mults.as_slice())?;
        Ok(Distance {
            bound: first.bound + second.bound,
            mults: Items::from_vec(mults),
        })
    }
}
