//! The queue of a core.

ghost use Rattle.std.specs.Prelude.{◌≡◌, ◌↔◌, ◌<◌, ◌++◌, [], ◌∷◌, IfOk, IsTrue, find, length, option_map, sum_by};
ghost use Rattle.sched_base.specs.declared.task.Task.{Task};
ghost use Rattle.policy_tree.specs.Meaning.{order_tree};
ghost use Rattle.policy_eval.specs.Evaluable.{IsEvaluableOrder};
ghost use Rattle.policy_eval.specs.Orders.{best_of};

use crate::heap::{add, take_out};
use crate::line::Line;
use crate::memory::QueueMemory;
use crate::numbers::next_number;
use crate::ranked::Ranked;
use crate::scans::{best_spot, thread_spot};
use policy_tree::{Order, copy_of_order};
use sched_base::{Task, ThreadId};
use std::alloc::Global;
use std::marker::Model;

/// Tasks in the order of their arrival. Only `with_room` takes memory.
///
/// Every task that is in it has its numbers in ranges wide enough for every policy.
#[derive(Drop)]
pub struct Queue {
    line: Line,
    /// The keys by which the best task is elected.
    order: Order,
    /// The nodes of the line. The best task's is the root.
    heap: Vec<Ranked>,
    /// The number for the task that comes next.
    next: u32,
    /// The weights of the tasks, added up.
    sum: u64,
}

impl Model for Queue {
    ghost use Rattle.policy_tree.specs.Meaning.{order_tree};
    ghost use Rattle.std.specs.Coded.{codes};
    ghost use Rattle.run_queue.specs.Code.Codes.{key_code};
    ghost use Rattle.run_queue.specs.Code.Lines.{tasks_of};
    ghost use Rattle.run_queue.specs.Code.Queues.{IsKept};
    ghost use Rattle.std.specs.Vec.{vec_capacity};
    ghost use Rattle.run_queue.specs.Tasks.{QueueView};

    ghost Value = { QueueView };

    ghost coded = { Prim.hlevel (codes, key_code) };

    ghost view = { λ q. record { tasks = tasks_of q.line.cells; order = order_tree q.order; room = q.line.room } };

    ghost invariant = { λ q. IsKept (order_tree q.order) q.line q.heap.items (vec_capacity q.heap) q.next q.sum };
}

impl Queue {
    ghost use Rattle.run_queue.specs.Tasks.{IsSeenTask, before, is_thread, rest_of_best, without_first};

    /// A queue without tasks that has room for so many. It keeps a copy of the order.
    pub fn with_room(alloc: Global, room: u32, elect: &Order) -> Result<Queue, QueueMemory>
        requires { IsEvaluableOrder (order_tree elect.now) }
        ensures { IfOk result (λ queue. queue ≡ record { tasks = []; order = order_tree elect.now; room = room }) }
    {
        Ok(Queue {
            line: Line::with_room(alloc, room)?,
            order: copy_of_order(alloc, elect)?,
            heap: Vec::with_capacity(alloc, room as usize)?,
            next: 0,
            sum: 0,
        })
    }

    /// The number of tasks.
    pub fn len(&self) -> u32
        ensures { result ≡ length self.now.tasks }
    {
        self.line.len()
    }

    /// Whether there is no task.
    pub fn is_empty(&self) -> bool
        ensures { IsTrue result ↔ (self.now.tasks ≡ []) }
    {
        self.line.len() == 0
    }

    /// The weights of the tasks, added up.
    pub fn load(&self) -> u64
        ensures { result ≡ sum_by (λ (t : Task). t.weight) self.now.tasks }
    {
        self.sum
    }

    /// The task comes to the queue's end.
    pub fn push(&mut self, task: Task)
        requires room { length self.old.tasks < self.old.room }
        requires task { IsSeenTask task }
        ensures { self.new ≡ record self.old { tasks = self.old.tasks ++ task ∷ [] } }
    {
        let arrival = next_number(&self.line, &self.order, &mut self.heap, self.next);
        let node = self.line.push(task);
        add(
            &self.line,
            &self.order,
            &mut self.heap,
            Ranked { node, arrival },
        );
        self.next = arrival + 1;
        self.sum += u64::from(task.weight);
    }

    /// Takes out the best task by the elect keys, of equals the earliest. `None` where there is no task.
    pub fn pop_best(&mut self) -> Option<Task>
        ensures best { result ≡ best_of (before self.old.order) self.old.tasks }
        ensures rest { self.new ≡ record self.old {
          tasks = rest_of_best (before self.old.order) self.old.tasks;
        } }
    {
        let root = *self.heap.first()?;
        let spot = self.line.spot_of(root.node);
        let task = take_out(&mut self.line, &self.order, &mut self.heap, spot);
        self.sum -= u64::from(task.weight);
        Some(task)
    }

    /// The best task by those keys, of equals the earliest. It stays queued. `None` where there is no task.
    pub fn peek_for_steal(&self, order: &Order) -> Option<&Task>
        requires { IsEvaluableOrder (order_tree order.now) }
        ensures { option_map (λ t. t.now) result ≡ best_of (before (order_tree order.now)) self.now.tasks }
    {
        let spot = best_spot(&self.line, order)?;
        Some(self.line.task(spot))
    }

    /// The number of that task.
    pub fn best_for_steal(&self, order: &Order) -> Option<ThreadId>
        requires { IsEvaluableOrder (order_tree order.now) }
        ensures { result ≡ option_map (λ t. t.id) (best_of (before (order_tree order.now)) self.now.tasks) }
    {
        let best = self.peek_for_steal(order)?;
        Some(best.id)
    }

    /// Takes out the earliest task of that number. `None` where there is none.
    pub fn take_thread(&mut self, id: ThreadId) -> Option<Task>
        ensures task { result ≡ find (is_thread id) self.old.tasks }
        ensures rest { self.new ≡ record self.old { tasks = without_first (is_thread id) self.old.tasks } }
    {
        let spot = thread_spot(&self.line, id)?;
        let task = take_out(&mut self.line, &self.order, &mut self.heap, spot);
        self.sum -= u64::from(task.weight);
        Some(task)
    }
}
