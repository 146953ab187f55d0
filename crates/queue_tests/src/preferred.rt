//! A queue that elects by a preferring key.

ghost use Rattle.std.specs.Prelude.{◌≡◌, ◌≤◌, []};
ghost use Rattle.policy_tree.specs.Meaning.{order_tree};
ghost use Rattle.policy_eval.specs.Evaluable.{IsEvaluableOrder};
ghost use Rattle.run_queue.specs.Tasks.{IsSeenTask};

use crate::drawn::Drawn;
use policy_tree::Order;
use run_queue::Queue;
use sched_base::{Task, ThreadId};
use std::alloc::Global;

/// How many tasks have room.
const ROOM: u32 = 4;

/// Whether by these keys tasks that weigh 3 or more come out first, of equals the earliest.
pub(crate) fn heavy_come_first(alloc: Global, elect: &Order) -> bool
    requires { IsEvaluableOrder (order_tree elect.now) }
{
    match Queue::with_room(alloc, ROOM, elect) {
        Ok(mut queue) => four_come_and_go(&mut queue),
        Err(_memory) => false,
    }
}

/// Whether of four tasks the second and the last come out first.
fn four_come_and_go(queue: &mut Queue) -> bool
    requires room { queue.old.room ≡ ROOM }
    requires empty { queue.old.tasks ≡ [] }
{
    queue.push(weighing(1, 1));
    queue.push(weighing(2, 4));
    queue.push(weighing(3, 2));
    queue.push(weighing(4, 5));
    gives(queue, 2) && gives(queue, 4) && gives(queue, 1) && gives(queue, 3) && queue.is_empty()
}

/// Whether the best task is that thread. It is taken out.
fn gives(queue: &mut Queue, thread: ThreadId) -> bool {
    match queue.pop_best() {
        Some(task) => task.id == thread,
        None => false,
    }
}

/// A thread of that weight.
fn weighing(id: ThreadId, weight: u32) -> Task
    requires { 1 ≤ weight }
    ensures { IsSeenTask result }
{
    let drawn = Drawn {
        id,
        arrival: 0,
        dice: u64::from(weight - 1),
    };
    drawn.task()
}
