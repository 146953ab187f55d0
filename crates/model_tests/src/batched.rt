//! Rows with batches as values, and what is asked of them.

ghost use Rattle.std.specs.Prelude.{◌≡◌, ◌≤◌, IfOk, length};
ghost use Rattle.sched_base.specs.declared.limits.TheConstants.{MAX_ENTRIES, MAX_STOLEN};
ghost use Rattle.policy_tree.specs.Meaning.{meaning_of};
ghost use Rattle.serial_steps.specs.SerialEnds.{IsPlayed};
ghost use Rattle.model_tests.specs.Batched.{plan_in, policy_in};
ghost use Rattle.model_tests.specs.Plans.{six_threads as six_threads_plan, six_weights as six_weights_plan};
ghost use Rattle.model_tests.specs.Plans.{seven_threads as seven_threads_plan};
ghost use Rattle.model_tests.specs.Plans.{three_weights as three_weights_plan};
ghost use Rattle.model_tests.specs.Steps.{IsLegalLength};

use crate::builders::{batched_policy, weighted_policy};
use crate::plans::{endless, on_two_cores, weighing};
use crate::steps::legal_length;
use policy_tree::Policy;
use round_model::{Entry, ModelMemory, Plan};
use serial_play::play_rounds;
use serial_steps::Played;
use std::alloc::{AllocError, Global};

/// Which threads stand on two cores. No thread has an end.
#[derive(Clone, Copy)]
pub enum BatchRow {
    /// Six of weight 1 on the first core, under the basic policy.
    SixThreads,
    /// The same, and one on the second core.
    SevenThreads,
    /// Six of several weights on the first core, under the weighted policy.
    SixWeights,
    /// A heavy one and two light ones on the first core, under the weighted policy.
    ThreeWeights,
}

/// How many of the entries are legal one after another in that row, where a steal moves so many threads at most.
pub fn legal_length_in(
    alloc: Global,
    row: BatchRow,
    limit: u32,
    entries: &[Entry],
) -> Result<u32, ModelMemory>
    requires some { 1 ≤ limit }
    requires few { limit ≤ MAX_STOLEN }
    requires entries { length entries.now ≤ MAX_ENTRIES }
    ensures { IfOk result (IsLegalLength (policy_in row limit) (plan_in row) entries.now) }
{
    let policy = policy_in(alloc, row, limit)?;
    let plan = plan_in(alloc, row)?;
    let count = legal_length(alloc, &policy, &plan, entries)?;
    Ok(count)
}

/// Serial play of that row, where a steal moves so many threads at most.
pub fn play_in(alloc: Global, row: BatchRow, limit: u32) -> Result<Played, ModelMemory>
    requires some { 1 ≤ limit }
    requires few { limit ≤ MAX_STOLEN }
    ensures { IfOk result (IsPlayed (policy_in row limit) (plan_in row)) }
{
    let policy = policy_in(alloc, row, limit)?;
    let plan = plan_in(alloc, row)?;
    let played = play_rounds(alloc, &policy, &plan)?;
    Ok(played)
}

/// The policy of a row.
fn policy_in(alloc: Global, row: BatchRow, limit: u32) -> Result<Policy, AllocError>
    ensures { IfOk result (λ policy. meaning_of policy ≡ policy_in row limit) }
{
    match row {
        BatchRow::SixThreads | BatchRow::SevenThreads => batched_policy(alloc, limit),
        BatchRow::SixWeights | BatchRow::ThreeWeights => weighted_policy(alloc, limit),
    }
}

/// The plan of a row.
fn plan_in(alloc: Global, row: BatchRow) -> Result<Plan, AllocError>
    ensures { IfOk result (λ plan. plan ≡ plan_in row) }
{
    match row {
        BatchRow::SixThreads => six_threads(alloc),
        BatchRow::SevenThreads => seven_threads(alloc),
        BatchRow::SixWeights => six_weights(alloc),
        BatchRow::ThreeWeights => three_weights(alloc),
    }
}

/// Six threads of weight 1 on the first of two cores.
fn six_threads(alloc: Global) -> Result<Plan, AllocError>
    ensures { IfOk result (λ plan. plan ≡ six_threads_plan) }
{
    let threads = [
        endless(alloc, 1)?,
        endless(alloc, 2)?,
        endless(alloc, 3)?,
        endless(alloc, 4)?,
        endless(alloc, 5)?,
        endless(alloc, 6)?,
    ];
    on_two_cores(alloc, Vec::from_array(alloc, threads)?)
}

/// Six threads of weight 1 on the first of two cores, and one on the second.
fn seven_threads(alloc: Global) -> Result<Plan, AllocError>
    ensures { IfOk result (λ plan. plan ≡ seven_threads_plan) }
{
    let mut last = endless(alloc, 7)?;
    last.core = 1;
    let threads = [
        endless(alloc, 1)?,
        endless(alloc, 2)?,
        endless(alloc, 3)?,
        endless(alloc, 4)?,
        endless(alloc, 5)?,
        endless(alloc, 6)?,
        last,
    ];
    on_two_cores(alloc, Vec::from_array(alloc, threads)?)
}

/// Six threads of several weights on the first of two cores.
fn six_weights(alloc: Global) -> Result<Plan, AllocError>
    ensures { IfOk result (λ plan. plan ≡ six_weights_plan) }
{
    let threads = [
        weighing(alloc, 1, 2)?,
        weighing(alloc, 2, 7)?,
        weighing(alloc, 3, 8)?,
        weighing(alloc, 4, 5)?,
        weighing(alloc, 5, 3)?,
        weighing(alloc, 6, 1)?,
    ];
    on_two_cores(alloc, Vec::from_array(alloc, threads)?)
}

/// A heavy thread and two light ones on the first of two cores.
fn three_weights(alloc: Global) -> Result<Plan, AllocError>
    ensures { IfOk result (λ plan. plan ≡ three_weights_plan) }
{
    let threads = [
        weighing(alloc, 1, 8)?,
        weighing(alloc, 2, 1)?,
        weighing(alloc, 3, 1)?,
    ];
    on_two_cores(alloc, Vec::from_array(alloc, threads)?)
}
