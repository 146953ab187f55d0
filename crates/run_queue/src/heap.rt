//! A heap of the nodes of a line. Its root is the first that comes out.

ghost use Rattle.std.specs.Prelude.{◌≡◌, ℕ, ◌<◌, ◌++◌, [], ◌∷◌, IsPermutation, Some, length, remove, slice_get};
ghost use Rattle.std.specs.Prelude.{slice_index_or};
ghost use Rattle.std.specs.Vec.{vec_capacity, vec_len};
ghost use Rattle.policy_tree.specs.Meaning.{order_tree};
ghost use Rattle.run_queue.specs.Code.Ahead.{AllNodes, ahead};
ghost use Rattle.run_queue.specs.Code.Heaps.{IsHeap, IsHeapBut};
ghost use Rattle.run_queue.specs.Code.Lines.{IsSpot, spot_at, tasks_of};
ghost use Rattle.run_queue.specs.Code.Queues.{CameBefore, HasItem, IsHeapOf};
ghost use Rattle.run_queue.specs.Code.Scans.{CanScan};

use crate::line::{Line, Spot};
use crate::ranked::Ranked;
use crate::sift::{parent_behind, sift_down, sift_up};
use node_pool::Index;
use policy_tree::Order;
use sched_base::Task;

/// The item comes to the heap.
pub(crate) fn add(line: &Line, order: &Order, heap: &mut Vec<Ranked>, item: Ranked)
    requires scan { CanScan (order_tree order.now) (tasks_of line.now.cells) }
    requires nodes { AllNodes line.now.cells (heap.old.items ++ item ∷ []) }
    requires heap { IsHeap (ahead (order_tree order.now) line.now.cells) heap.old.items }
    requires room { vec_len heap.old < vec_capacity heap.old }
    ensures items { IsPermutation (heap.old.items ++ item ∷ []) heap.new.items }
    ensures heap { IsHeap (ahead (order_tree order.now) line.now.cells) heap.new.items }
    ensures capacity { vec_capacity heap.new ≡ vec_capacity heap.old }
{
    let end = heap.len();
    heap.push_reserved(item);
    sift_up(line, order, heap, end);
}

/// The item in that place leaves the heap.
pub(crate) fn leave(line: &Line, order: &Order, heap: &mut Vec<Ranked>, at: usize) -> Ranked
    requires scan { CanScan (order_tree order.now) (tasks_of line.now.cells) }
    requires nodes { AllNodes line.now.cells heap.old.items }
    requires inside { at < length heap.old.items }
    requires heap { IsHeap (ahead (order_tree order.now) line.now.cells) heap.old.items }
    ensures item { result ≡ slice_index_or heap.old.items at result }
    ensures items { IsPermutation heap.old.items (result ∷ heap.new.items) }
    ensures heap { IsHeap (ahead (order_tree order.now) line.now.cells) heap.new.items }
    ensures capacity { vec_capacity heap.new ≡ vec_capacity heap.old }
{
    let item = heap.swap_remove(at);
    if at == heap.len() {
        return item;
    }
    mend(line, order, heap, at);
    item
}

/// The item in that place, which came from the end, comes to its own.
fn mend(line: &Line, order: &Order, heap: &mut Vec<Ranked>, at: usize)
    requires scan { CanScan (order_tree order.now) (tasks_of line.now.cells) }
    requires nodes { AllNodes line.now.cells heap.old.items }
    requires inside { at < length heap.old.items }
    requires but { IsHeapBut (ahead (order_tree order.now) line.now.cells) heap.old.items at }
    ensures items { IsPermutation heap.old.items heap.new.items }
    ensures heap { IsHeap (ahead (order_tree order.now) line.now.cells) heap.new.items }
    ensures capacity { vec_capacity heap.new ≡ vec_capacity heap.old }
{
    match parent_behind(line, order, heap, at) {
        Some(_parent) => sift_up(line, order, heap, at),
        None => sift_down(line, order, heap, at),
    }
}

/// Where the item of that node stands.
fn place_of(heap: &[Ranked], node: Index) -> usize
    requires { HasItem heap.now node }
    ensures inside { result < length heap.now }
    ensures node { (d : Ranked) → (slice_index_or heap.now result d).node ≡ node }
{
    for at in 0..heap.len() {
        if heap[at].node == node {
            return at;
        }
    }
    unreachable!()
}

/// Takes the task of that place out of the line, and its item out of the heap.
pub(crate) fn take_out(line: &mut Line, order: &Order, heap: &mut Vec<Ranked>, spot: Spot) -> Task
    requires spot { IsSpot line.old.cells spot }
    requires heap { IsHeapOf (order_tree order.now) line.old.cells heap.old.items }
    ensures task { (k : ℕ) → spot_at line.old.cells k ≡ Some spot
        → slice_get (tasks_of line.old.cells) k ≡ Some result }
    ensures rest { (k : ℕ) → spot_at line.old.cells k ≡ Some spot
        → line.new ≡ record line.old { cells = remove line.old.cells k } }
    ensures heap { IsHeapOf (order_tree order.now) line.new.cells heap.new.items }
    ensures came { (next : ℕ) → CameBefore next heap.old.items → CameBefore next heap.new.items }
    ensures capacity { vec_capacity heap.new ≡ vec_capacity heap.old }
{
    let at = place_of(heap, spot.node);
    leave(line, order, heap, at);
    line.remove(spot)
}
