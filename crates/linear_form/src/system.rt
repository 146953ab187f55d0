//! Systems: bounds on the variables, and rows that are added one by one.

ghost use Rattle.std.specs.Prelude.{◌≡◌, ◌↔◌, ◌≤◌, [], ◌∷◌, ◌++◌, length, vec_len, IsTrue, OnOk, OnErr, All, SomeIff};
ghost use Rattle.std.specs.Prelude.{◌<◌, ◌^◌};
ghost use Rattle.linear_form.specs.Difference.{IsDifference};
ghost use Rattle.linear_form.specs.Points.{points_of};
ghost use Rattle.linear_form.specs.Solution.{Solves};
ghost use Rattle.linear_form.specs.System.{IsBound, IsRow};

use crate::form::{Bound, Point, Row};
use crate::shape::{are_differences, points_of};
use crate::value::{all_hold, all_within};
use sched_base::{MAX_ROWS, MAX_VARIABLES};
use std::alloc::Global;
use std::marker::Model;

/// Why a row wasn't added.
#[derive(Debug, Drop, PartialEq)]
pub enum AtomFault {
    /// The system has `MAX_ROWS` rows.
    Full,
    /// There was no memory for one more row.
    Memory,
}

/// At most `MAX_VARIABLES` variables with their ranges, and at most `MAX_ROWS` rows over them.
#[derive(Drop)]
pub struct System {
    bounds: Vec<Bound>,
    rows: Vec<Row>,
}

impl Model for System {
    ghost use Rattle.linear_form.specs.System.{LinearSystem, IsSystem};

    ghost Value = { LinearSystem };

    ghost view = { λ s. record { bounds = s.bounds.items; rows = s.rows.items } };

    ghost invariant = { λ s. IsSystem (record { bounds = s.bounds.items; rows = s.rows.items }) };
}

impl System {
    ghost use Rattle.linear_form.specs.System.{IsSystem};

    /// The system with these ranges, one for each variable, and no row. It takes no memory.
    pub fn new(alloc: Global, bounds: Vec<Bound>) -> System
        requires few { vec_len bounds ≤ MAX_VARIABLES }
        requires in_range { All IsBound bounds.items }
        ensures bounds { result.bounds ≡ bounds.items }
        ensures rows { result.rows ≡ [] }
    {
        System {
            bounds,
            rows: Vec::new(alloc),
        }
    }

    /// Adds a row at the end.
    pub fn add_atom(&mut self, row: Row) -> Result<(), AtomFault>
        requires { IsRow (length self.old.bounds) row }
        ensures full { (result ≡ Err AtomFault.Full) ↔ (length self.old.rows ≡ MAX_ROWS) }
        ensures ok { OnOk result (self.new ≡ record self.old { rows = self.old.rows ++ row ∷ [] }) }
        ensures refused { OnErr result (self.new ≡ self.old) }
    {
        if self.rows.len() == MAX_ROWS {
            return Err(AtomFault::Full);
        }
        match self.rows.push(row) {
            Ok(()) => Ok(()),
            Err(_unstored) => Err(AtomFault::Memory),
        }
    }

    /// Whether the point has one value for each variable, in its range, and every row holds there.
    pub fn satisfies(&self, point: &Point) -> bool
        ensures { IsTrue result ↔ Solves self.now.bounds self.now.rows point.now.vals }
    {
        let bounds = self.bounds.as_slice();
        let vals = point.vals.as_slice();
        vals.len() == bounds.len()
            && all_within(bounds, vals)
            && all_hold(self.rows.as_slice(), vals)
    }

    /// Whether each row has no term, a variable or minus a variable, or a variable minus another: then Bellman's and
    /// Ford's search for negative cycles decides the system.
    pub fn is_difference(&self) -> bool
        ensures { IsTrue result ↔ IsDifference self.now.rows }
    {
        are_differences(self.rows.as_slice())
    }

    /// How many points the ranges have, the product of their lengths; none where it passes `2^128 - 1`.
    pub fn points(&self) -> Option<u128>
        ensures { SomeIff result (points_of self.now.bounds < 2 ^ 128) (points_of self.now.bounds) }
    {
        points_of(self.bounds.as_slice())
    }

    /// The ranges of the variables, in the order of their numbers.
    pub fn bounds(&self) -> &[Bound]
        ensures { result.now ≡ self.now.bounds }
    {
        self.bounds.as_slice()
    }

    /// The rows, in the order in which they were added.
    pub fn rows(&self) -> &[Row]
        ensures rows { result.now ≡ self.now.rows }
        ensures system { IsSystem self.now }
    {
        self.rows.as_slice()
    }

    /// The number of variables.
    pub fn variable_count(&self) -> u32
        ensures { result ≡ length self.now.bounds }
    {
        self.bounds.len() as u32
    }

    /// The number of rows.
    pub fn row_count(&self) -> u32
        ensures { result ≡ length self.now.rows }
    {
        self.rows.len() as u32
    }
}
