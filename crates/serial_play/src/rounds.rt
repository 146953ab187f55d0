//! Serial play, round by round.

ghost use Rattle.std.specs.Prelude.{◌≡◌, ◌+◌, ◌<◌, ◌≤◌, [], IfOk, None, OnOk, length, slice_index_or, ℕ};
ghost use Rattle.policy_tree.specs.Meaning.{Meaning, meaning_of};
ghost use Rattle.policy_eval.specs.Obligations.{MeetsHandlerObligations};
ghost use Rattle.round_model.specs.declared.entry.Entry.TheVariants as entry;
ghost use Rattle.round_model.specs.Fits.{Fits};
ghost use Rattle.round_model.specs.Legal.{LegalNext};
ghost use Rattle.round_model.specs.Limits.{IsWithinLimits};
ghost use Rattle.serial_steps.specs.SerialEnds.{IsPlayed, RoundFits};
ghost use Rattle.serial_play.specs.Plays.{IsPlay};
ghost use Rattle.serial_play.specs.Rounds.{Begins, PlaysRound};

use crate::play::{Play, append};
use crate::turns::{end_turns, take_ordered};
use policy_tree::Policy;
use round_judge::{Past, round_due};
use round_model::{Entry, History, ModelMemory, Plan};
use sched_base::{MAX_CORES, MAX_ENTRIES, MAX_THREADS, Reads};
use serial_steps::{Played, round_fits};
use std::alloc::Global;

/// Serial play of the plan under the policy, as far as the plan's limit lets it come.
///
/// Before each round all entries that it may have must fit the limit: its beginning, two for each core, and one for
/// each thread.
pub fn play_rounds(alloc: Global, policy: &Policy, plan: &Plan) -> Result<Played, ModelMemory>
    requires fits { Fits (meaning_of policy.now) plan.now }
    requires limits { IsWithinLimits plan.now }
    requires handlers { MeetsHandlerObligations (meaning_of policy.now) }
    ensures { IfOk result (IsPlayed (meaning_of policy.now) plan.now) }
{
    let mut play = start(alloc, plan)?;
    for begun in 0..plan.rounds {
        if !round_due(plan, &play.past) {
            return Ok(Played::Whole(play.history));
        }
        if !round_fits(plan, play.history.len()) {
            return Ok(Played::Full(play.history));
        }
        play_round(alloc, policy, plan, &mut play, begun + 1)?;
    }
    Ok(Played::Whole(play.history))
}

/// The play of no entry.
fn start(alloc: Global, plan: &Plan) -> Result<Play, ModelMemory>
    requires limits { IsWithinLimits plan.now }
    requires consts_each { length plan.now.consts ≡ plan.now.cores }
    requires few_threads { length plan.now.threads ≤ MAX_THREADS }
    ensures play { IfOk result (λ play. (p : Meaning) → Fits p plan.now → IsPlay p plan.now play) }
    ensures empty { IfOk result (λ play. play.history ≡ []) }
{
    let past = Past::new(alloc, plan)?;
    Ok(Play {
        past,
        history: History::from_vec(Vec::new(alloc)),
        start: 0,
        touched: [0; MAX_CORES],
        looks: [None; MAX_CORES],
    })
}

/// Plays the round of that number.
fn play_round(
    alloc: Global,
    policy: &Policy,
    plan: &Plan,
    play: &mut Play,
    number: u32,
) -> Result<(), ModelMemory>
    requires fits { Fits (meaning_of policy.now) plan.now }
    requires handlers { MeetsHandlerObligations (meaning_of policy.now) }
    requires play { IsPlay (meaning_of policy.now) plan.now play.old }
    requires legal { LegalNext (meaning_of policy.now) plan.now play.old.history (entry.Round number) }
    requires room { RoundFits plan.now (length play.old.history) }
    ensures { OnOk result (PlaysRound (meaning_of policy.now) plan.now number play.old play.new) }
{
    begin(alloc, policy, plan, play, number)?;
    take_ordered(alloc, policy, plan, play, number)?;
    end_turns(alloc, policy, plan, play)
}

/// Begins the round of that number.
fn begin(
    alloc: Global,
    policy: &Policy,
    plan: &Plan,
    play: &mut Play,
    number: u32,
) -> Result<(), ModelMemory>
    requires fits { Fits (meaning_of policy.now) plan.now }
    requires handlers { MeetsHandlerObligations (meaning_of policy.now) }
    requires play { IsPlay (meaning_of policy.now) plan.now play.old }
    requires legal { LegalNext (meaning_of policy.now) plan.now play.old.history (entry.Round number) }
    requires room { length play.old.history < MAX_ENTRIES }
    ensures { OnOk result (Begins (meaning_of policy.now) plan.now number play.old play.new) }
{
    append(
        alloc,
        policy,
        plan,
        &mut play.past,
        &mut play.history,
        &Entry::Round { number },
    )?;
    play.start = play.history.len();
    forget(&mut play.looks);
    Ok(())
}

/// Forgets every look.
fn forget(looks: &mut [Option<Reads>; MAX_CORES])
    ensures { (c : ℕ) → slice_index_or looks.new c None ≡ None }
{
    for core in 0..MAX_CORES {
        looks[core] = None;
    }
}
