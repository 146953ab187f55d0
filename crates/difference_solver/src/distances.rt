//! The table of distances between all pairs of values.

ghost use Rattle.std.specs.Prelude.{◌≡◌};

use crate::distance::Distance;
use linear_cert::MultList;
use std::marker::Model;

/// A distance from each node to each. The nodes are the variables and then the zero.
#[derive(Drop)]
pub struct Distances {
    size: usize,
    items: Vec<Distance>,
}

impl Model for Distances {
    ghost use Rattle.difference_solver.specs.Distances.{Table, IsTable};

    ghost Value = { Table };

    ghost view = { λ d. record { size = d.size; items = d.items.items } };

    ghost invariant = { λ d. IsTable (record { size = d.size; items = d.items.items }) };
}

impl Distances {
    ghost use Rattle.std.specs.Prelude.{◌≡◌, ℕ, ◌+◌, ◌*◌, ◌<◌, ◌≤◌, pos, ◌≤ℤ◌, ◌<ℤ◌, vec_len, MatchOption};
    ghost use Rattle.sched_base.specs.declared.limits.TheConstants.{MAX_VARIABLES};
    ghost use Rattle.difference_solver.specs.Distances.{Puts, between};

    /// The table of these distances, row by row.
    pub fn new(size: usize, items: Vec<Distance>) -> Distances
        requires some { 0 < size }
        requires few { size ≤ MAX_VARIABLES + 1 }
        requires square { vec_len items ≡ size * size }
        ensures { result ≡ record { size = size; items = items.items } }
    {
        Distances { size, items }
    }

    /// The number of nodes.
    pub fn size(&self) -> usize
        ensures size { result ≡ self.now.size }
        ensures some { 0 < result }
        ensures few { result ≤ MAX_VARIABLES + 1 }
    {
        self.size
    }

    /// The distance from one node to another.
    pub fn get(&self, from: usize, to: usize) -> &Distance
        requires from { from < self.now.size }
        requires to { to < self.now.size }
        ensures { result.now ≡ between self.now from to }
    {
        &self.items[from * self.size + to]
    }

    /// Puts another distance in the place of one.
    pub fn put(&mut self, from: usize, to: usize, distance: Distance)
        requires from { from < self.old.size }
        requires to { to < self.old.size }
        ensures { Puts self.old self.new from to distance }
    {
        let place = from * self.size + to;
        self.items[place] = distance;
    }

    /// A node that lies below itself, if there is one.
    pub fn node_below_itself(&self) -> Option<usize>
        ensures { MatchOption result
            ((k : ℕ) → k < self.now.size → pos 0 ≤ℤ (between self.now k k).bound)
            (λ node. (node < self.now.size) × ((between self.now node node).bound <ℤ pos 0)) }
    {
        for node in 0..self.size {
            if self.get(node, node).bound < 0 {
                return Some(node);
            }
        }
        None
    }

    /// The rows of the distance from one node to another.
    pub fn into_mults(mut self, from: usize, to: usize) -> MultList
        requires from { from < self.size }
        requires to { to < self.size }
        ensures { result ≡ (between self from to).mults }
    {
        let place = from * self.size + to;
        self.items.swap_remove(place).mults
    }
}
