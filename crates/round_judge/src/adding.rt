//! One entry more.

ghost use Rattle.std.specs.Prelude.{◌≡◌, ◌<◌, ◌≤◌, [], ◌∷◌, ◌++◌, ◌+◌, ℕ, All, OnErr, OnOk, length, sum_by};
ghost use Rattle.policy_tree.specs.Meaning.{meaning_of};
ghost use Rattle.policy_eval.specs.Obligations.{MeetsHandlerObligations};
ghost use Rattle.round_model.specs.After.{moved};
ghost use Rattle.round_model.specs.Bounds.{CoreInBounds, standing_count};
ghost use Rattle.round_model.specs.Cores.{Cores, listed};
ghost use Rattle.round_model.specs.Fits.{Fits};
ghost use Rattle.round_model.specs.Legal.{LegalNext};
ghost use Rattle.round_model.specs.Lists.{Lists};
ghost use Rattle.round_model.specs.Kept.{Holds, IsKept};
ghost use Rattle.round_model.specs.Fitting.{AreThere, MayBeSaid};
ghost use Rattle.round_judge.specs.Past.{IsPastOf, IsWindow, OfEach, StandsFor};
ghost use Rattle.round_judge.specs.Steps.{comes, IsNextAfter};
ghost use Rattle.round_judge.specs.Additions.{IsAdded, IsBegun, IsNoted};
ghost use Rattle.round_judge.specs.Readable.{IsCountable};
ghost use Rattle.round_judge.specs.Units.{IsSmallCore};

use crate::changes::{enter, wake, work};
use crate::directory::Directory;
use crate::notes::{look, note_arrival, note_end, note_turn};
use crate::past::Past;
use crate::rounds::{arrivals_of, clear_turns, keep_newest};
use crate::stealing::steal;
use policy_tree::Policy;
use round_model::{Did, Entry, ModelMemory, Plan, State};
use sched_base::{CoreId, MAX_CORES, MAX_ENTRIES, MAX_ROUNDS, MAX_THREADS};
use std::alloc::Global;

/// Adds an entry that is legal next. Without memory for it the past stays as it was.
pub fn step(
    alloc: Global,
    policy: &Policy,
    plan: &Plan,
    past: &mut Past,
    entry: Entry,
) -> Result<(), ModelMemory>
    requires fits { Fits (meaning_of policy.now) plan.now }
    requires handlers { MeetsHandlerObligations (meaning_of policy.now) }
    requires past { IsPastOf (meaning_of policy.now) plan.now past.old }
    requires next { IsNextAfter (meaning_of policy.now) plan.now past.old entry }
    ensures stands { OnOk result (OfEach (meaning_of policy.now) plan.now past.old (λ history.
        LegalNext (meaning_of policy.now) plan.now history entry →
        StandsFor (meaning_of policy.now) plan.now past.new (history ++ entry ∷ []))) }
    ensures belongs { OnOk result (IsPastOf (meaning_of policy.now) plan.now past.new) }
    ensures err { OnErr result (past.new ≡ past.old) }
{
    match entry.acting_core() {
        None => begin_round(alloc, plan, past),
        Some(by) => add_entry(alloc, policy, plan, past, by, &entry),
    }
}

/// The next round begins.
fn begin_round(alloc: Global, plan: &Plan, past: &mut Past) -> Result<(), ModelMemory>
    requires window { IsWindow past.old }
    requires room { past.old.entries < MAX_ENTRIES }
    requires rounds { past.old.rounds < MAX_ROUNDS }
    ensures ok { OnOk result (IsBegun plan.now past.old past.new) }
    ensures err { OnErr result (past.new ≡ past.old) }
{
    let number = past.rounds + 1;
    past.arrivals = arrivals_of(alloc, plan, number)?;
    past.rounds = number;
    clear_turns(&mut past.turns);
    keep_newest(&mut past.rows);
    past.entries += 1;
    Ok(())
}

/// The entry of the core.
fn add_entry(
    alloc: Global,
    policy: &Policy,
    plan: &Plan,
    past: &mut Past,
    by: CoreId,
    entry: &Entry,
) -> Result<(), ModelMemory>
    requires fits { Fits (meaning_of policy.now) plan.now }
    requires handlers { MeetsHandlerObligations (meaning_of policy.now) }
    requires past { IsPastOf (meaning_of policy.now) plan.now past.old }
    requires room { past.old.entries < MAX_ENTRIES }
    requires by { by < plan.now.cores }
    requires there { AreThere plan.now.cores entry.now }
    requires free { sum_by standing_count past.old.state + comes entry.now ≤ MAX_THREADS }
    ensures ok { OnOk result (IsAdded (meaning_of policy.now) plan.now by entry.now past.old past.new) }
    ensures err { OnErr result (past.new ≡ past.old) }
{
    let rows = past.rows.len();
    let newest = *past.rows.get(rows - 1);
    past.rows.push(newest)?;
    let changed = change(
        alloc,
        policy,
        plan,
        &past.directory,
        &mut past.state,
        past.rounds,
        entry,
    );
    if let Err(fault) = changed {
        past.rows.truncate(rows);
        return Err(fault);
    }
    note(past, by, entry);
    Ok(())
}

/// What the entry makes of the cores.
fn change(
    alloc: Global,
    policy: &Policy,
    plan: &Plan,
    directory: &Directory,
    state: &mut State,
    round: u32,
    entry: &Entry,
) -> Result<(), ModelMemory>
    requires fits { Fits (meaning_of policy.now) plan.now }
    requires handlers { MeetsHandlerObligations (meaning_of policy.now) }
    requires lists { Lists plan.now directory.now }
    requires bounds { All (CoreInBounds (meaning_of policy.now)) state.old }
    requires room { All IsSmallCore state.old }
    requires round { round ≤ MAX_ROUNDS }
    requires there { AreThere (length state.old) entry.now }
    ensures ok { OnOk result ((n : ℕ) (m : Cores) → state.old ≡ listed n m → AreThere n entry.now →
        MayBeSaid (meaning_of policy.now) plan.now round m entry.now →
        state.new ≡ listed n (moved (meaning_of policy.now) plan.now round entry.now m)) }
    ensures kept { OnOk result (All (Holds (meaning_of policy.now)) state.old →
        IsKept (meaning_of policy.now) 0 (comes entry.now) state.old state.new) }
    ensures err { OnErr result (state.new ≡ state.old) }
{
    match *entry {
        Entry::Enter { thread, at, .. } => {
            enter(alloc, policy, plan, directory, state, thread, at)
        }
        Entry::Wake { thread, by, at, .. } => wake(alloc, policy, state, thread, by, at),
        Entry::Work { by, .. } => work(alloc, policy, plan, directory, state, by, round),
        Entry::Steal {
            by,
            from,
            threads,
            ..
        } => steal(alloc, state, by, from, threads),
        Entry::Round { .. } | Entry::Fail { .. } | Entry::Pass { .. } => Ok(()),
    }
}

/// What else changes in the past, once the cores are as the entry leaves them.
fn note(past: &mut Past, by: CoreId, entry: &Entry)
    requires rows { 1 ≤ length past.old.rows }
    requires entries { past.old.entries < MAX_ENTRIES }
    requires by { by < length past.old.turns }
    requires few { length past.old.state ≤ MAX_CORES }
    requires countable { All IsCountable past.old.state }
    ensures { IsNoted by entry.now past.old past.new }
{
    note_turn(&mut past.turns, by, entry);
    if let Entry::Enter { .. } = entry {
        note_arrival(&mut past.arrivals, by);
    }
    if let Entry::Work {
        did: Did::Ended(thread),
        ..
    } = entry
    {
        note_end(&mut past.ended, *thread);
    }
    let last = past.rows.len() - 1;
    look(past.rows.get_mut(last), &past.state, entry);
    past.entries += 1;
}
