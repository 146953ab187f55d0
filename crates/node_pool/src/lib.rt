//! A fixed number of nodes, of which some are taken: what queues lay their items in, without taking memory.
//!
//! A contract sees a pool as the list of its nodes by their indexes. A free node is `None`, and a taken one has
//! its value and one link, which the layer above sets.
#![tactic(auto)]

ghost use Rattle.std.specs.Prelude.{◌≡◌, ◌↔◌, IfErr, IfOk, IsErr, IsSome, None, Some, option_map, replicate, slice_set};
ghost use Rattle.std.specs.Borrow.{Lends, sem};

use std::alloc::{AllocError, Global};
use std::marker::Model;
use std::mem;

/// The index of a node, below the number of the nodes.
pub type Index = u32;

/// Why no pool was made.
#[derive(Clone, Copy, Debug, PartialEq, Eq)]
pub enum PoolMemory {
    /// There was no memory for the nodes.
    Memory,
}

impl From<AllocError> for PoolMemory {
    ghost use Rattle.std.specs.Prelude.{◌≡◌};
    ghost use Rattle.node_pool.specs.declared.PoolMemory.TheVariants.{Memory};

    ghost from_gives = { λ _ fault. fault ≡ Memory };

    fn from(_error: AllocError) -> PoolMemory {
        PoolMemory::Memory
    }
}

/// What a taken node holds.
#[derive(Drop)]
pub struct Held<T> {
    pub value: T,
    /// The node that the layer above links to this one. `None` until it sets one.
    pub link: Option<Index>,
}

/// A node.
#[derive(Drop)]
enum Node<T> {
    /// It is free, and so is the one that comes next in the line of the free ones.
    Free { next: Option<Index> },
    /// It holds a value.
    Taken(Held<T>),
}

impl<T> Node<T> {
    ghost use Rattle.node_pool.specs.FreeLine.{held_of, valued};
    ghost use Rattle.node_pool.specs.contracts.Node.{the_row};

    /// The value of a taken node.
    fn value_mut(&mut self) -> &mut T
        requires { IsSome (held_of self.old) }
        ensures* writes_back { sem 𝓛 (Lends (the_row T.row) T.row self.entry result (valued self.old)) }
        ensures value { option_map (λ held. held.value) (held_of self.old) ≡ Some result.now }
    {
        match self {
            Node::Taken(held) => &mut held.value,
            Node::Free { .. } => unreachable!(),
        }
    }
}

/// A fixed number of nodes, fewer than `2^32`. Only `with_room` takes memory.
#[derive(Drop)]
pub struct Pool<T> {
    nodes: Vec<Node<T>>,
    /// Where the line of the free nodes begins.
    first: Option<Index>,
    free: u32,
}

impl<T> Model for Pool<T> {
    ghost use Rattle.std.specs.Prelude.{List, Option};
    ghost use Rattle.node_pool.specs.declared.Held.{Held};

    ghost Value = { List (Option (Held T)) };

    ghost use Rattle.node_pool.specs.FreeLine.{IsLined, nodes_of};

    ghost view = { λ pool. nodes_of pool.nodes.items };

    ghost invariant = { λ pool. IsLined pool.nodes.items pool.first pool.free };
}

impl<T: Drop> Pool<T> {
    ghost use Rattle.node_pool.specs.Nodes.{IsFree, IsTaken, free_of, link_at, value_at, with_held, with_link};
    ghost use Rattle.node_pool.specs.Lends.{lends_value};

    /// A pool of so many nodes, all of them free.
    pub fn with_room(alloc: Global, room: u32) -> Result<Self, PoolMemory>
        ensures { IfOk result (λ pool. pool ≡ replicate room None) }
    {
        let mut nodes = Vec::with_capacity(alloc, room as usize)?;
        let mut first = None;
        for at in 0..room {
            nodes.push_reserved(Node::Free { next: first });
            first = Some(at);
        }
        Ok(Pool {
            nodes,
            first,
            free: room,
        })
    }

    /// Lays the value into a free node, which then has no link. Where no node is free, the value comes back.
    pub fn take(&mut self, value: T) -> Result<Index, T>
        ensures was_free { IfOk result (IsFree self.old) }
        ensures holds { IfOk result (λ at. self.new ≡ with_held self.old at value None) }
        ensures full { IsErr result ↔ (free_of self.old ≡ 0) }
        ensures err { IfErr result (λ back. (back ≡ value) × (self.new ≡ self.old)) }
    {
        let Some(at) = self.first else {
            return Err(value);
        };
        let taken = Node::Taken(Held { value, link: None });
        let Node::Free { next } = mem::replace(&mut self.nodes[at as usize], taken) else {
            unreachable!()
        };
        self.first = next;
        self.free -= 1;
        Ok(at)
    }

    /// Takes the value out of its node, which is free then. Its link is forgotten.
    pub fn give(&mut self, at: Index) -> T
        requires { IsTaken self.old at }
        ensures value { value_at self.old at ≡ Some result }
        ensures frees { self.new ≡ slice_set self.old at None }
    {
        let free = Node::Free { next: self.first };
        let Node::Taken(held) = mem::replace(&mut self.nodes[at as usize], free) else {
            unreachable!()
        };
        self.first = Some(at);
        self.free += 1;
        held.value
    }

    /// The value of that node.
    pub fn get(&self, at: Index) -> &T
        requires { IsTaken self.now at }
        ensures { value_at self.now at ≡ Some result.now }
    {
        match &self.nodes[at as usize] {
            Node::Taken(held) => &held.value,
            Node::Free { .. } => unreachable!(),
        }
    }

    /// The value of that node, to be changed. Its link and every other node stay as they are.
    pub fn get_mut(&mut self, at: Index) -> &mut T
        requires { IsTaken self.old at }
        ensures* writes_back { sem 𝓛 (lends_value T.row self.entry at result) }
        ensures value { value_at self.old at ≡ Some result.now }
    {
        self.nodes[at as usize].value_mut()
    }

    /// The node that was linked to that one since it was taken.
    pub fn link(&self, at: Index) -> Option<Index>
        requires { IsTaken self.now at }
        ensures { link_at self.now at ≡ Some result }
    {
        match &self.nodes[at as usize] {
            Node::Taken(held) => held.link,
            Node::Free { .. } => unreachable!(),
        }
    }

    /// Links that node to another, or to none.
    pub fn set_link(&mut self, at: Index, next: Option<Index>)
        requires { IsTaken self.old at }
        ensures { self.new ≡ with_link self.old at next }
    {
        match &mut self.nodes[at as usize] {
            Node::Taken(held) => held.link = next,
            Node::Free { .. } => unreachable!(),
        }
    }

    /// How many nodes are free.
    pub fn free(&self) -> u32
        ensures { result ≡ free_of self.now }
    {
        self.free
    }
}
