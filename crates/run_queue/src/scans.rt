//! Walks along a line, for the task that is sought.

ghost use Rattle.std.specs.Prelude.{◌≡◌, ℕ, All, MatchOption, Some, [], cond, slice_get};
ghost use Rattle.sched_base.specs.declared.task.Task.{Task};
ghost use Rattle.policy_tree.specs.Meaning.{order_tree};
ghost use Rattle.policy_eval.specs.Evaluable.{IsEvaluableOrder};
ghost use Rattle.run_queue.specs.Code.Lines.{IsSpot, spot_at, tasks_of};
ghost use Rattle.run_queue.specs.Code.Scans.{HasNoThread, IsBestSpot, IsThreadSpot};
ghost use Rattle.run_queue.specs.Tasks.{IsSeenTask, before};

use crate::line::{Line, Spot};
use policy_eval::comes_first;
use policy_tree::Order;
use sched_base::{Task, ThreadId};

/// The place of the best task by the keys, of equals the earliest, if there is a task.
pub(crate) fn best_spot(line: &Line, order: &Order) -> Option<Spot>
    requires order { IsEvaluableOrder (order_tree order.now) }
    requires tasks { All IsSeenTask (tasks_of line.now.cells) }
    ensures { MatchOption result (tasks_of line.now.cells ≡ []) (IsBestSpot (order_tree order.now) line.now.cells) }
{
    let mut best = line.first()?;
    let mut next = line.after(best);
    for _place in 1..line.len() {
        let Some(spot) = next else { unreachable!() };
        best = better_spot(line, order, best, spot);
        next = line.after(spot);
    }
    Some(best)
}

/// The later spot where its task comes strictly before that of the earlier one, which it is otherwise.
fn better_spot(line: &Line, order: &Order, earlier: Spot, later: Spot) -> Spot
    requires order { IsEvaluableOrder (order_tree order.now) }
    requires tasks { All IsSeenTask (tasks_of line.now.cells) }
    requires earlier { IsSpot line.now.cells earlier }
    requires later { IsSpot line.now.cells later }
    ensures { (i j : ℕ) (t u : Task) → spot_at line.now.cells i ≡ Some earlier
        → spot_at line.now.cells j ≡ Some later → slice_get (tasks_of line.now.cells) i ≡ Some t
        → slice_get (tasks_of line.now.cells) j ≡ Some u
        → result ≡ cond (before (order_tree order.now) u t) later earlier }
{
    if comes_first(order, line.task(later), line.task(earlier)) {
        later
    } else {
        earlier
    }
}

/// The place of the earliest task of that number, if there is one.
pub(crate) fn thread_spot(line: &Line, id: ThreadId) -> Option<Spot>
    ensures { MatchOption result (HasNoThread id line.now.cells) (IsThreadSpot id line.now.cells) }
{
    let mut next = line.first();
    for _place in 0..line.len() {
        let Some(spot) = next else { unreachable!() };
        if line.task(spot).id == id {
            return Some(spot);
        }
        next = line.after(spot);
    }
    None
}
