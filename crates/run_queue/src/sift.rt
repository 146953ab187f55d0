//! How an item of a heap comes to its place: up past its parents, or down past its children.

ghost use Rattle.std.specs.Prelude.{◌≡◌, ◌<◌, IsPermutation, MatchOption, length};
ghost use Rattle.std.specs.Vec.{vec_capacity};
ghost use Rattle.policy_tree.specs.Meaning.{order_tree};
ghost use Rattle.run_queue.specs.Code.Ahead.{AllNodes, ahead};
ghost use Rattle.run_queue.specs.Code.Heaps.{FollowsParent, IsChildAhead, IsFirstChild, IsHeap, IsHeapBut};
ghost use Rattle.run_queue.specs.Code.Heaps.{LeadsChildren};
ghost use Rattle.run_queue.specs.Code.Heaps.{HasNoChild, IsParentBehind};
ghost use Rattle.run_queue.specs.Code.Lines.{tasks_of};
ghost use Rattle.run_queue.specs.Code.Scans.{CanScan};

use crate::line::Line;
use crate::ranked::{Ranked, is_ahead};
use policy_tree::Order;

/// The item in that place changes places with its parent as long as it is ahead of it.
pub(crate) fn sift_up(line: &Line, order: &Order, heap: &mut Vec<Ranked>, at: usize)
    requires scan { CanScan (order_tree order.now) (tasks_of line.now.cells) }
    requires nodes { AllNodes line.now.cells heap.old.items }
    requires inside { at < length heap.old.items }
    requires but { IsHeapBut (ahead (order_tree order.now) line.now.cells) heap.old.items at }
    requires leads { LeadsChildren (ahead (order_tree order.now) line.now.cells) heap.old.items at }
    ensures items { IsPermutation heap.old.items heap.new.items }
    ensures heap { IsHeap (ahead (order_tree order.now) line.now.cells) heap.new.items }
    ensures capacity { vec_capacity heap.new ≡ vec_capacity heap.old }
{
    let mut here = at;
    while let Some(parent) = parent_behind(line, order, heap, here) {
        heap.swap(here, parent);
        here = parent;
    }
}

/// The item in that place changes places with its first child as long as that one is ahead of it.
pub(crate) fn sift_down(line: &Line, order: &Order, heap: &mut Vec<Ranked>, at: usize)
    requires scan { CanScan (order_tree order.now) (tasks_of line.now.cells) }
    requires nodes { AllNodes line.now.cells heap.old.items }
    requires inside { at < length heap.old.items }
    requires but { IsHeapBut (ahead (order_tree order.now) line.now.cells) heap.old.items at }
    requires follows { FollowsParent (ahead (order_tree order.now) line.now.cells) heap.old.items at }
    ensures items { IsPermutation heap.old.items heap.new.items }
    ensures heap { IsHeap (ahead (order_tree order.now) line.now.cells) heap.new.items }
    ensures capacity { vec_capacity heap.new ≡ vec_capacity heap.old }
{
    let mut here = at;
    while let Some(child) = child_ahead(line, order, heap, here) {
        heap.swap(here, child);
        here = child;
    }
}

/// The parent of that place, if the item there is ahead of it.
pub(crate) fn parent_behind(line: &Line, order: &Order, heap: &[Ranked], at: usize) -> Option<usize>
    requires scan { CanScan (order_tree order.now) (tasks_of line.now.cells) }
    requires nodes { AllNodes line.now.cells heap.now }
    requires inside { at < length heap.now }
    ensures { MatchOption result (FollowsParent (ahead (order_tree order.now) line.now.cells) heap.now at)
        (IsParentBehind (ahead (order_tree order.now) line.now.cells) heap.now at) }
{
    if at == 0 {
        return None;
    }
    let parent = (at - 1) / 2;
    if is_ahead(line, order, heap[at], heap[parent]) {
        return Some(parent);
    }
    None
}

/// The first child of that place, if it is ahead of the item there.
fn child_ahead(line: &Line, order: &Order, heap: &[Ranked], at: usize) -> Option<usize>
    requires scan { CanScan (order_tree order.now) (tasks_of line.now.cells) }
    requires nodes { AllNodes line.now.cells heap.now }
    requires inside { at < length heap.now }
    ensures { MatchOption result (LeadsChildren (ahead (order_tree order.now) line.now.cells) heap.now at)
        (IsChildAhead (ahead (order_tree order.now) line.now.cells) heap.now at) }
{
    let child = first_child(line, order, heap, at)?;
    if is_ahead(line, order, heap[child], heap[at]) {
        return Some(child);
    }
    None
}

/// The child of that place that the other child isn't ahead of, if it has a child.
fn first_child(line: &Line, order: &Order, heap: &[Ranked], at: usize) -> Option<usize>
    requires scan { CanScan (order_tree order.now) (tasks_of line.now.cells) }
    requires nodes { AllNodes line.now.cells heap.now }
    requires inside { at < length heap.now }
    ensures { MatchOption result (HasNoChild heap.now at)
        (IsFirstChild (ahead (order_tree order.now) line.now.cells) heap.now at) }
{
    let left = 2 * at + 1;
    let right = left + 1;
    if left >= heap.len() {
        return None;
    }
    if right >= heap.len() {
        return Some(left);
    }
    if is_ahead(line, order, heap[right], heap[left]) {
        return Some(right);
    }
    Some(left)
}
