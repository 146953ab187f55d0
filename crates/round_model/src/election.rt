//! Which of several tasks comes first by the keys of an order.

ghost use Rattle.std.specs.Prelude.{◌≡◌, ◌<◌, ◌^◌, All, MatchOption, Some, [], length, slice_get};
ghost use Rattle.policy_tree.specs.Meaning.{order_tree};
ghost use Rattle.policy_eval.specs.Evaluable.{IsEvaluableOrder};
ghost use Rattle.round_model.specs.UnitSteps.{IsBestPlace, IsSeenTask};
ghost use Rattle.round_model.specs.Work.{before as comes_before};

use policy_eval::comes_first;
use policy_tree::Order;
use sched_base::Task;

/// The place of the best task by the keys, of equals the earliest. `None` where there is no task.
pub fn best_place(order: &Order, tasks: &[Task]) -> Option<u32>
    requires order { IsEvaluableOrder (order_tree order.now) }
    requires tasks { All IsSeenTask tasks.now }
    requires few { length tasks.now < 2 ^ 32 }
    ensures { MatchOption result (tasks.now ≡ []) (IsBestPlace (order_tree order.now) tasks.now) }
{
    let mut best = None;
    for at in (0..tasks.len() as u32).rev() {
        best = match best {
            Some(later) if stands_first(order, tasks, later, at) => Some(later),
            _ => Some(at),
        };
    }
    best
}

/// Whether the task in the first place comes strictly before the one in the second.
fn stands_first(order: &Order, tasks: &[Task], first: u32, second: u32) -> bool
    requires order { IsEvaluableOrder (order_tree order.now) }
    requires tasks { All IsSeenTask tasks.now }
    requires first { first < length tasks.now }
    requires second { second < length tasks.now }
    ensures { (t u : Task) → slice_get tasks.now first ≡ Some t → slice_get tasks.now second ≡ Some u →
        result ≡ comes_before (order_tree order.now) t u }
{
    comes_first(order, &tasks[first as usize], &tasks[second as usize])
}
