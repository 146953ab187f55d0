//! The nodes of a line with the numbers of their arrival, and which of two comes out of the heap first.

ghost use Rattle.std.specs.Prelude.{◌≡◌};
ghost use Rattle.policy_tree.specs.Meaning.{order_tree};
ghost use Rattle.run_queue.specs.Code.Ahead.{HasNode, ahead};
ghost use Rattle.run_queue.specs.Code.Lines.{tasks_of};
ghost use Rattle.run_queue.specs.Code.Scans.{CanScan};

use crate::line::Line;
use node_pool::Index;
use policy_eval::comes_first;
use policy_tree::Order;

/// A node of a line, and the number of its arrival.
#[derive(Clone, Copy)]
pub(crate) struct Ranked {
    pub(crate) node: Index,
    pub(crate) arrival: u32,
}

/// Whether the task of the first comes strictly before that of the second, or is the earlier of equals.
pub(crate) fn is_ahead(line: &Line, order: &Order, first: Ranked, second: Ranked) -> bool
    requires scan { CanScan (order_tree order.now) (tasks_of line.now.cells) }
    requires first { HasNode line.now.cells first.node }
    requires second { HasNode line.now.cells second.node }
    ensures { result ≡ ahead (order_tree order.now) line.now.cells first second }
{
    let task = line.task_of(first.node);
    let other = line.task_of(second.node);
    if comes_first(order, task, other) {
        return true;
    }
    first.arrival < second.arrival && !comes_first(order, other, task)
}
