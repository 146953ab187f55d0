//! The threads of a steal, found without moving any.
//!
//! Each thread is the best of those whose numbers aren't taken yet, and what is seen of both cores is summed up.

ghost use Rattle.std.specs.Prelude.{◌≡◌, ◌+◌, ◌-◌, ◌≤◌, ◌<◌, ◌^◌, ◌∷◌, All, IfSome, Some};
ghost use Rattle.sched_base.specs.declared.limits.TheConstants.{MAX_THREADS};
ghost use Rattle.policy_tree.specs.Meaning.{batch_tree, meaning_of, order_tree};
ghost use Rattle.policy_eval.specs.Evaluable.{IsEvaluableOrder};
ghost use Rattle.policy_eval.specs.Fitting.{CoreFits, IsTask};
ghost use Rattle.policy_eval.specs.Orders.{best_of, better_of as better_by};
ghost use Rattle.policy_eval.specs.Resolved.{IsResolved, IsResolvedBatch};
ghost use Rattle.policy_eval.specs.Sights.{move_values};
ghost use Rattle.policy_eval.specs.Values.{holds as holds_at};
ghost use Rattle.round_model.specs.Attempts.{first_of, further_moves, kept_if, moves_of};
ghost use Rattle.round_model.specs.Batches.{is_named, unnamed, with_fewer, with_more};
ghost use Rattle.round_model.specs.UnitSteps.{IsSeenTask};
ghost use Rattle.round_model.specs.Moves.{handed, received};
ghost use Rattle.round_model.specs.Work.{before};
ghost use Rattle.round_judge.specs.Code.Batches.{OfEachThief, ShowsCore};

use policy_eval::{CoreValues, comes_first};
use policy_tree::{Batch, Order, Policy};
use round_model::{ModelCore, goes_on, may_steal};
use sched_base::{Stolen, Task, ThreadId};

/// The threads that a steal moves, in the order of their moves. `own` tells of the thief, and `other` of the victim.
pub(crate) fn moves(
    policy: &Policy,
    own: &CoreValues,
    other: &CoreValues,
    victim: &ModelCore,
) -> Stolen
    requires policy { IsResolved (meaning_of policy.now) }
    requires own { CoreFits (meaning_of policy.now) own.now }
    requires victim { ShowsCore (meaning_of policy.now) other.now victim.now }
    requires few { own.now.nr + other.now.nr ≤ MAX_THREADS }
    ensures { OfEachThief own.now other.now victim.now (λ plan a v thief. result ≡ moves_of (meaning_of policy.now)
        plan a v (meaning_of policy.now).batch thief victim.now) }
{
    let Some(first) = first(policy, own, other, victim) else {
        return Stolen::empty();
    };
    match &policy.batch {
        None => Stolen::of(first.id),
        Some(batch) => further(policy, batch, own, other, victim, first),
    }
}

/// The thread that is moved first.
fn first(policy: &Policy, own: &CoreValues, other: &CoreValues, victim: &ModelCore) -> Option<Task>
    requires policy { IsResolved (meaning_of policy.now) }
    requires own { CoreFits (meaning_of policy.now) own.now }
    requires victim { ShowsCore (meaning_of policy.now) other.now victim.now }
    ensures first { OfEachThief own.now other.now victim.now (λ plan a v thief. result ≡ first_of
        (meaning_of policy.now) plan a v thief victim.now) }
    ensures best { IfSome result (λ t. best_of (before (order_tree policy.now.steal)) victim.now.queue ≡ Some t) }
{
    if may_steal(policy, own, other) {
        best_untaken(&policy.steal, victim.queue.as_slice(), &Stolen::empty())
    } else {
        None
    }
}

/// The threads that a steal moves of which that one is the first.
fn further(
    policy: &Policy,
    batch: &Batch,
    own: &CoreValues,
    other: &CoreValues,
    victim: &ModelCore,
    first: Task,
) -> Stolen
    requires policy { IsResolved (meaning_of policy.now) }
    requires batch { IsResolvedBatch (meaning_of policy.now) (batch_tree batch.now) }
    requires own { CoreFits (meaning_of policy.now) own.now }
    requires victim { ShowsCore (meaning_of policy.now) other.now victim.now }
    requires few { own.now.nr + other.now.nr ≤ MAX_THREADS }
    requires first { best_of (before (order_tree policy.now.steal)) victim.now.queue ≡ Some first }
    ensures { OfEachThief own.now other.now victim.now (λ plan a v thief. result ≡ first.id ∷ further_moves
        (meaning_of policy.now) plan a v (batch_tree batch.now) (batch.now.limit - 1)
        (received first thief) (handed first.id victim.now)) }
{
    let mut stolen = Stolen::of(first.id);
    let mut load = u64::from(first.weight);
    for _move in 1..batch.limit {
        let own_now = more_seen(own, stolen.len(), load);
        let other_now = fewer_seen(other, stolen.len(), load);
        let Some(next) = next(policy, batch, &own_now, &other_now, victim, &stolen) else {
            return stolen;
        };
        stolen.push(next.id);
        load += u64::from(next.weight);
    }
    stolen
}

/// The thread that is moved next where these are taken. `own` and `other` tell of both cores as the moves left them.
fn next(
    policy: &Policy,
    batch: &Batch,
    own: &CoreValues,
    other: &CoreValues,
    victim: &ModelCore,
    taken: &Stolen,
) -> Option<Task>
    requires policy { IsResolved (meaning_of policy.now) }
    requires batch { IsResolvedBatch (meaning_of policy.now) (batch_tree batch.now) }
    requires own { CoreFits (meaning_of policy.now) own.now }
    requires other { CoreFits (meaning_of policy.now) other.now }
    requires queue { All (IsTask (meaning_of policy.now)) victim.now.queue }
    ensures { result ≡ kept_if
        (λ t. holds_at (move_values own.now other.now t.weight t.attrs) (batch_tree batch.now).condition)
        (best_of (before (order_tree policy.now.steal)) (unnamed taken.now victim.now.queue)) }
{
    let task = best_untaken(&policy.steal, victim.queue.as_slice(), taken)?;
    if goes_on(policy, batch, own, other, &task) {
        Some(task)
    } else {
        None
    }
}

/// What is seen of the core once so many threads of that load came to it.
fn more_seen(core: &CoreValues, threads: u32, load: u64) -> CoreValues
    requires few { core.now.nr + threads < 2 ^ 32 }
    requires light { core.now.load + load < 2 ^ 64 }
    ensures { result ≡ with_more threads load core.now }
{
    CoreValues {
        nr: core.nr + threads,
        load: core.load + load,
        consts: core.consts,
    }
}

/// What is seen of the core once so many threads of that load left it.
fn fewer_seen(core: &CoreValues, threads: u32, load: u64) -> CoreValues
    requires some { threads ≤ core.now.nr }
    requires heavy { load ≤ core.now.load }
    ensures { result ≡ with_fewer threads load core.now }
{
    CoreValues {
        nr: core.nr - threads,
        load: core.load - load,
        consts: core.consts,
    }
}

/// The best of the tasks whose numbers aren't among these, of equals the earliest.
fn best_untaken(order: &Order, tasks: &[Task], taken: &Stolen) -> Option<Task>
    requires order { IsEvaluableOrder (order_tree order.now) }
    requires tasks { All IsSeenTask tasks.now }
    ensures { result ≡ best_of (before (order_tree order.now)) (unnamed taken.now tasks.now) }
{
    let mut best = None;
    for at in (0..tasks.len()).rev() {
        let task = tasks[at];
        if !is_among(taken, task.id) {
            best = Some(better_of(order, task, best));
        }
    }
    best
}

/// The later task where it comes strictly before the other one, which it is otherwise.
fn better_of(order: &Order, task: Task, later: Option<Task>) -> Task
    requires order { IsEvaluableOrder (order_tree order.now) }
    requires task { IsSeenTask task }
    requires later { IfSome later IsSeenTask }
    ensures better { result ≡ better_by (before (order_tree order.now)) task later }
    ensures seen { IsSeenTask result }
{
    match later {
        Some(later) if comes_first(order, &later, &task) => later,
        _ => task,
    }
}

/// Whether the thread is among these.
fn is_among(threads: &Stolen, thread: ThreadId) -> bool
    ensures { result ≡ is_named threads.now thread }
{
    for at in 0..threads.len() {
        if threads.get(at) == thread {
            return true;
        }
    }
    false
}
