//! Tasks of equal keys, which come out in the order of their arrival.

ghost use Rattle.std.specs.Prelude.{◌≡◌, []};
ghost use Rattle.policy_tree.specs.Meaning.{order_tree};
ghost use Rattle.policy_eval.specs.Evaluable.{IsEvaluableOrder};

use crate::drawn::Drawn;
use policy_tree::Order;
use run_queue::Queue;
use sched_base::{MAX_THREADS, Task, ThreadId};
use std::alloc::Global;

/// The thread that is taken out of the middle, 512.
const MIDDLE: ThreadId = MAX_THREADS / 2 + 1;

/// Whether as many tasks as there can be, all with the same keys, come out as they came, once one was taken out of the
/// middle.
pub(crate) fn equals_come_as_they_came(alloc: Global, elect: &Order) -> bool
    requires { IsEvaluableOrder (order_tree elect.now) }
{
    let Ok(mut queue) = Queue::with_room(alloc, MAX_THREADS, elect) else {
        return false;
    };
    fill(&mut queue);
    number_of(queue.take_thread(MIDDLE)) == Some(MIDDLE)
        && gives_the_others(&mut queue)
        && queue.is_empty()
}

/// The threads come to the queue in the order of their numbers.
fn fill(queue: &mut Queue)
    requires empty { queue.old.tasks ≡ [] }
    requires room { queue.old.room ≡ MAX_THREADS }
{
    for before in 0..MAX_THREADS {
        let drawn = Drawn {
            id: before + 1,
            arrival: before,
            dice: 0,
        };
        queue.push(drawn.task());
    }
}

/// Whether all threads but the middle one come out in the order of their numbers.
fn gives_the_others(queue: &mut Queue) -> bool {
    for before in 0..MAX_THREADS {
        let id = before + 1;
        if id != MIDDLE && number_of(queue.pop_best()) != Some(id) {
            return false;
        }
    }
    true
}

/// The number of the task's thread.
fn number_of(task: Option<Task>) -> Option<ThreadId> {
    let task = task?;
    Some(task.id)
}
