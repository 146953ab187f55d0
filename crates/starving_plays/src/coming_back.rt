//! Where a history comes back.

ghost use Rattle.std.specs.Prelude.{◌≡◌, ◌<◌, ◌≤◌, IfOk, length, position, slice_index_or};
ghost use Rattle.policy_tree.specs.Meaning.{meaning_of};
ghost use Rattle.policy_eval.specs.Obligations.{MeetsHandlerObligations};
ghost use Rattle.round_model.specs.Fits.{Fits};
ghost use Rattle.round_model.specs.Legal.{Legal};
ghost use Rattle.round_model.specs.Limits.{IsWithinLimits};
ghost use Rattle.round_judge.specs.Past.{IsPastOf, StandsFor};
ghost use Rattle.starving_plays.specs.Code.{IsFirstReturn, IsRoundBack, opens_first};

use crate::sameness::is_that_core;
use policy_tree::Policy;
use round_judge::{Past, step};
use round_model::{Entry, ModelCore, ModelMemory, Plan, State};
use sched_base::{MAX_ENTRIES, Pos};
use std::alloc::Global;

/// The round from whose beginning on a history is watched.
pub const WATCHED_FROM: u32 = 101;

/// Where a history comes back.
#[derive(Clone, Copy)]
pub(crate) struct Return {
    /// How many entries come before the round that begins with the core as it was.
    pub(crate) at: Pos,
    /// The number of that round.
    pub(crate) round: u32,
}

/// Where the round begins from which on the history is watched.
pub(crate) fn opening_of(history: &[Entry]) -> Option<usize>
    ensures { result ≡ position opens_first history.now }
{
    history.iter().position(|entry| opens_first(entry))
}

/// Whether that round begins.
fn opens_first(entry: &Entry) -> bool
    ensures { result ≡ opens_first entry.now }
{
    match entry {
        Entry::Round { number } => *number == WATCHED_FROM,
        Entry::Enter { .. } | Entry::Wake { .. } | Entry::Work { .. } => false,
        Entry::Steal { .. } | Entry::Fail { .. } | Entry::Pass { .. } => false,
    }
}

/// What is kept of the entries.
pub(crate) fn past_of(
    alloc: Global,
    policy: &Policy,
    plan: &Plan,
    history: &[Entry],
) -> Result<Past, ModelMemory>
    requires fits { Fits (meaning_of policy.now) plan.now }
    requires limits { IsWithinLimits plan.now }
    requires handlers { MeetsHandlerObligations (meaning_of policy.now) }
    requires legal { Legal (meaning_of policy.now) plan.now history.now }
    requires few { length history.now ≤ MAX_ENTRIES }
    ensures belongs { IfOk result (IsPastOf (meaning_of policy.now) plan.now) }
    ensures stands { IfOk result (λ past. StandsFor (meaning_of policy.now) plan.now past history.now) }
{
    let mut past = Past::new(alloc, plan)?;
    for entry in history {
        step(alloc, policy, plan, &mut past, *entry)?;
    }
    Ok(past)
}

/// Where the history first comes back to the core as it was.
pub(crate) fn return_of(
    alloc: Global,
    policy: &Policy,
    plan: &Plan,
    history: &[Entry],
    core: &ModelCore,
) -> Result<Option<Return>, ModelMemory>
    requires fits { Fits (meaning_of policy.now) plan.now }
    requires limits { IsWithinLimits plan.now }
    requires handlers { MeetsHandlerObligations (meaning_of policy.now) }
    requires legal { Legal (meaning_of policy.now) plan.now history.now }
    requires few { length history.now ≤ MAX_ENTRIES }
    requires alone { plan.now.cores ≡ 1 }
    ensures { IfOk result (IsFirstReturn (meaning_of policy.now) plan.now history.now core.now) }
{
    let mut past = Past::new(alloc, plan)?;
    for entry in history {
        if let Some(round) = round_back(past.state(), entry, core) {
            let at = past.entries();
            return Ok(Some(Return { at, round }));
        }
        step(alloc, policy, plan, &mut past, *entry)?;
    }
    Ok(None)
}

/// The round that the entry begins, if it is a later one and core 0 is as it was.
fn round_back(state: &State, entry: &Entry, core: &ModelCore) -> Option<u32>
    requires { 0 < length state.now }
    ensures { IsRoundBack state.now entry.now core.now result }
{
    match entry {
        Entry::Round { number } => {
            if WATCHED_FROM < *number && is_that_core(state.get(0), core) {
                Some(*number)
            } else {
                None
            }
        }
        Entry::Enter { .. } | Entry::Wake { .. } | Entry::Work { .. } => None,
        Entry::Steal { .. } | Entry::Fail { .. } | Entry::Pass { .. } => None,
    }
}
