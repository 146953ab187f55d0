//! What is told of a round as it opens.

ghost use Rattle.std.specs.Prelude.{◌≡◌, ◌==◌, ◌+◌, ◌<◌, ◌≤◌, ◌++◌, nat_le, All, IfOk, count_by, length, map};
ghost use Rattle.std.specs.Prelude.{option_to_list, take};
ghost use Rattle.std.specs.List.{list_any};
ghost use Rattle.sched_base.specs.declared.limits.TheConstants.{MAX_ENTRIES};
ghost use Rattle.policy_tree.specs.Meaning.{meaning_of};
ghost use Rattle.policy_eval.specs.Resolved.{IsResolved};
ghost use Rattle.round_model.specs.declared.state.ModelCore.{ModelCore};
ghost use Rattle.round_model.specs.Cores.{load_of, thread_count};
ghost use Rattle.round_judge.specs.Readable.{IsCountable};
ghost use Rattle.sched_report.specs.Code.Openings.{AllFit, IsLight, core_at, idle_in, row_in, row_told};

use crate::resting::gap_at_rest;
use crate::rows::{RoundRow, RoundRows};
use policy_tree::Policy;
use round_model::{Entry, ModelCore, Plan, State, spread_of};
use sched_base::MAX_CORES;
use std::alloc::AllocError;

/// Adds the row of the entry, where a round begins in it, in this state.
pub(crate) fn note_round(
    rounds: &mut RoundRows,
    policy: &Policy,
    plan: &Plan,
    state: &State,
    entry: &Entry,
) -> Result<(), AllocError>
    requires policy { IsResolved (meaning_of policy.now) }
    requires cores { (length state.now ≡ plan.now.cores) × (length plan.now.consts ≡ plan.now.cores) }
    requires few { length state.now ≤ MAX_CORES }
    requires countable { All IsCountable state.now }
    requires light { All IsLight state.now }
    requires fits { AllFit (meaning_of policy.now) plan.now (core_at state.now) }
    requires room { length rounds.old < MAX_ENTRIES }
    ensures { IfOk result (λ _. rounds.new ≡ rounds.old
        ++ option_to_list (row_told (meaning_of policy.now) plan.now state.now entry.now)) }
{
    match *entry {
        Entry::Round { number } => rounds.push(round_row(policy, plan, state, number)),
        Entry::Enter { .. } | Entry::Wake { .. } | Entry::Work { .. } => Ok(()),
        Entry::Steal { .. } | Entry::Fail { .. } | Entry::Pass { .. } => Ok(()),
    }
}

/// The row of a round of that number that opens in this state.
fn round_row(policy: &Policy, plan: &Plan, state: &State, number: u32) -> RoundRow
    requires policy { IsResolved (meaning_of policy.now) }
    requires cores { (length state.now ≡ plan.now.cores) × (length plan.now.consts ≡ plan.now.cores) }
    requires few { length state.now ≤ MAX_CORES }
    requires countable { All IsCountable state.now }
    requires light { All IsLight state.now }
    requires fits { AllFit (meaning_of policy.now) plan.now (core_at state.now) }
    ensures { result ≡ row_in (meaning_of policy.now) plan.now state.now number }
{
    let loads = loads_of(state);
    let loads = &loads[..state.len() as usize];
    RoundRow {
        number,
        spread: spread_of(loads),
        idle: idle_beside(state.as_slice()),
        rest: gap_at_rest(policy, plan, state, loads),
    }
}

/// The loads of the cores, and 0 past the last core.
fn loads_of(state: &State) -> [u64; MAX_CORES]
    requires few { length state.now ≤ MAX_CORES }
    requires countable { All IsCountable state.now }
    ensures { take (length state.now) result ≡ map load_of state.now }
{
    let mut loads = [0; MAX_CORES];
    for core in 0..state.len() {
        loads[core as usize] = state.get(core).seen().load;
    }
    loads
}

/// How many of the cores are idle where one of them is overloaded, and 0 elsewhere.
fn idle_beside(cores: &[ModelCore]) -> u32
    requires { length cores.now ≤ MAX_CORES }
    ensures { result ≡ idle_in cores.now }
{
    if has_overloaded(cores) {
        idle_count(cores)
    } else {
        0
    }
}

/// Whether one of the cores is overloaded.
fn has_overloaded(cores: &[ModelCore]) -> bool
    ensures { result ≡ list_any (λ (core : ModelCore). nat_le 2 (thread_count core)) cores.now }
{
    cores.iter().any(|core| is_overloaded(core))
}

/// How many of the cores are idle.
fn idle_count(cores: &[ModelCore]) -> u32
    requires { length cores.now ≤ MAX_CORES }
    ensures { result ≡ count_by (λ (core : ModelCore). thread_count core == 0) cores.now }
{
    cores.iter().filter(|core| is_idle(core)).count() as u32
}

/// Whether no thread is current or queued.
fn is_idle(core: &ModelCore) -> bool
    ensures { result ≡ (thread_count core.now == 0) }
{
    core.current.is_none() && core.queue.is_empty()
}

/// Whether two threads or more are current or queued.
fn is_overloaded(core: &ModelCore) -> bool
    ensures { result ≡ nat_le 2 (thread_count core.now) }
{
    match core.current {
        None => core.queue.len() >= 2,
        Some(_) => !core.queue.is_empty(),
    }
}
