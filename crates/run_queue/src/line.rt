//! A line of tasks in the nodes of a pool, in the order of their arrival.

ghost use Rattle.std.specs.Prelude.{◌≡◌, ◌<◌, ◌++◌, [], ◌∷◌, ℕ, suc, IfOk, Some, length, remove, slice_get};

use crate::links::{last_after, relink};
use node_pool::{Index, Pool, PoolMemory};
use sched_base::Task;
use std::alloc::Global;
use std::marker::Model;

/// A place of a line, as it is found by walking along it.
#[derive(Clone, Copy)]
pub(crate) struct Spot {
    /// The node before it, `None` where the line begins.
    pub(crate) before: Option<Index>,
    pub(crate) node: Index,
}

/// Tasks in a line, each in a node that is linked to the next.
#[derive(Drop)]
pub(crate) struct Line {
    pool: Pool<Task>,
    first: Option<Index>,
    last: Option<Index>,
    len: u32,
}

impl Model for Line {
    ghost use Rattle.std.specs.Prelude.{length};
    ghost use Rattle.run_queue.specs.Code.Lines.{IsLaid, LineView, cells_from};

    ghost Value = { LineView };

    ghost view = { λ line. record { cells = cells_from line.pool line.first line.len; room = length line.pool } };

    ghost invariant = { λ line. IsLaid line.pool line.first line.last line.len };
}

impl Line {
    ghost use Rattle.sched_base.specs.declared.task.Task.{Task};
    ghost use Rattle.run_queue.specs.Code.Ahead.{HasNode, task_at};
    ghost use Rattle.run_queue.specs.Code.Lines.{IsSpot, spot_at, tasks_of};

    /// A line without tasks, with room for so many.
    pub(crate) fn with_room(alloc: Global, room: u32) -> Result<Line, PoolMemory>
        ensures { IfOk result (λ line. line ≡ record { cells = []; room = room }) }
    {
        Ok(Line {
            pool: Pool::with_room(alloc, room)?,
            first: None,
            last: None,
            len: 0,
        })
    }

    /// The number of tasks.
    pub(crate) fn len(&self) -> u32
        ensures { result ≡ length self.now.cells }
    {
        self.len
    }

    /// The task comes to the line's end, in a node that wasn't the line's.
    pub(crate) fn push(&mut self, task: Task) -> Index
        requires { length self.old.cells < self.old.room }
        ensures cells { self.new.cells ≡ self.old.cells ++ record { node = result; task = task } ∷ [] }
        ensures fresh { HasNode self.old.cells result → ⊥ }
        ensures room { self.new.room ≡ self.old.room }
    {
        let Ok(node) = self.pool.take(task) else {
            unreachable!()
        };
        self.first = relink(&mut self.pool, self.first, self.last, Some(node));
        self.last = Some(node);
        self.len += 1;
        node
    }

    /// The first place. `None` where there is no task.
    pub(crate) fn first(&self) -> Option<Spot>
        ensures { result ≡ spot_at self.now.cells 0 }
    {
        let node = self.first?;
        Some(Spot { before: None, node })
    }

    /// The place after that one.
    pub(crate) fn after(&self, spot: Spot) -> Option<Spot>
        requires { IsSpot self.now.cells spot }
        ensures { (k : ℕ) → spot_at self.now.cells k ≡ Some spot → result ≡ spot_at self.now.cells (suc k) }
    {
        let node = self.pool.link(spot.node)?;
        Some(Spot {
            before: Some(spot.node),
            node,
        })
    }

    /// The task in that place.
    pub(crate) fn task(&self, spot: Spot) -> &Task
        requires { IsSpot self.now.cells spot }
        ensures { (k : ℕ) → spot_at self.now.cells k ≡ Some spot →
            slice_get (tasks_of self.now.cells) k ≡ Some result.now }
    {
        self.pool.get(spot.node)
    }

    /// The task in that node.
    pub(crate) fn task_of(&self, node: Index) -> &Task
        requires { HasNode self.now.cells node }
        ensures { result.now ≡ task_at self.now.cells node }
    {
        self.pool.get(node)
    }

    /// The place of that node. It walks along the links, for the node before it.
    pub(crate) fn spot_of(&self, node: Index) -> Spot
        requires { HasNode self.now.cells node }
        ensures spot { IsSpot self.now.cells result }
        ensures node { result.node ≡ node }
    {
        let mut next = self.first();
        for _place in 0..self.len() {
            let Some(spot) = next else { unreachable!() };
            if spot.node == node {
                return spot;
            }
            next = self.after(spot);
        }
        unreachable!()
    }

    /// Takes the task of that place out.
    pub(crate) fn remove(&mut self, spot: Spot) -> Task
        requires { IsSpot self.old.cells spot }
        ensures task { (k : ℕ) → spot_at self.old.cells k ≡ Some spot →
            slice_get (tasks_of self.old.cells) k ≡ Some result }
        ensures rest { (k : ℕ) → spot_at self.old.cells k ≡ Some spot →
            self.new ≡ record self.old { cells = remove self.old.cells k } }
    {
        let next = self.pool.link(spot.node);
        self.first = relink(&mut self.pool, self.first, spot.before, next);
        self.last = last_after(self.last, spot.before, next);
        self.len -= 1;
        self.pool.give(spot.node)
    }
}
