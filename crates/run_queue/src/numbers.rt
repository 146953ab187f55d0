//! The numbers of arrival, and how they are given anew where none is left.

ghost use Rattle.std.specs.Prelude.{◌≡◌, ◌<◌, ◌≤◌, ◌-◌, ◌^◌, length};
ghost use Rattle.std.specs.Vec.{vec_capacity};
ghost use Rattle.policy_tree.specs.Meaning.{order_tree};
ghost use Rattle.run_queue.specs.Code.Queues.{CameBefore, IsHeapOf};

use crate::heap::add;
use crate::line::Line;
use crate::ranked::Ranked;
use policy_tree::Order;

/// The number for the task that comes next. Where none is left, the others get new ones first.
pub(crate) fn next_number(line: &Line, order: &Order, heap: &mut Vec<Ranked>, next: u32) -> u32
    requires heap { IsHeapOf (order_tree order.now) line.now.cells heap.old.items }
    requires came { CameBefore next heap.old.items }
    requires room { length line.now.cells ≤ vec_capacity heap.old }
    requires few { length line.now.cells < 2 ^ 32 - 1 }
    ensures heap { IsHeapOf (order_tree order.now) line.now.cells heap.new.items }
    ensures came { CameBefore result heap.new.items }
    ensures left { result < 2 ^ 32 - 1 }
    ensures capacity { vec_capacity heap.new ≡ vec_capacity heap.old }
{
    if next < u32::MAX {
        return next;
    }
    number_anew(line, order, heap)
}

/// Empties the heap and fills it again along the line, with numbers from 0. The line stays as it is. Gives the
/// number that comes next.
fn number_anew(line: &Line, order: &Order, heap: &mut Vec<Ranked>) -> u32
    requires heap { IsHeapOf (order_tree order.now) line.now.cells heap.old.items }
    requires room { length line.now.cells ≤ vec_capacity heap.old }
    ensures heap { IsHeapOf (order_tree order.now) line.now.cells heap.new.items }
    ensures came { CameBefore result heap.new.items }
    ensures count { result ≡ length line.now.cells }
    ensures capacity { vec_capacity heap.new ≡ vec_capacity heap.old }
{
    heap.clear();
    let mut next = line.first();
    for arrival in 0..line.len() {
        let Some(spot) = next else { unreachable!() };
        let node = spot.node;
        add(line, order, heap, Ranked { node, arrival });
        next = line.after(spot);
    }
    line.len()
}
