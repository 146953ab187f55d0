//! How far serial play has come, and the next step of a core.

ghost use Rattle.std.specs.Prelude.{◌≡◌, ◌<◌, ◌≤◌, ◌+◌, ℕ, [], ◌∷◌, ◌++◌, IfOk, IsFalse, OnOk, Some, cond, length};
ghost use Rattle.std.specs.Prelude.{slice_index};
ghost use Rattle.policy_tree.specs.Meaning.{meaning_of};
ghost use Rattle.policy_eval.specs.Obligations.{MeetsHandlerObligations};
ghost use Rattle.round_model.specs.Entries.{touches};
ghost use Rattle.round_model.specs.Fits.{Fits};
ghost use Rattle.round_model.specs.Kinds.{is_round};
ghost use Rattle.round_model.specs.Legal.{LegalNext};
ghost use Rattle.round_judge.specs.Past.{IsPastOf, StandsFor};
ghost use Rattle.serial_play.specs.Plays.{Advances, HasAdded, HasRoom, IsPlay, fresh_of};

use crate::steps::next_step;
use policy_tree::Policy;
use round_judge::{Past, step};
use round_model::{Entry, History, ModelMemory, Plan};
use sched_base::{CoreId, MAX_CORES, MAX_ENTRIES, Pos, Reads};
use serial_steps::NextStep;
use std::alloc::Global;

/// How far serial play has come.
#[derive(Drop)]
pub(crate) struct Play {
    /// What is kept of the history.
    pub(crate) past: Past,
    /// The entries so far.
    pub(crate) history: History,
    /// The position just after the last Round, and 0 before the first.
    pub(crate) start: Pos,
    /// Of each core, one past the last entry that touches it.
    pub(crate) touched: [Pos; MAX_CORES],
    /// Of each core, the look that it has made in the open round, if it has looked.
    pub(crate) looks: [Option<Reads>; MAX_CORES],
}

/// What a core that looks just now reads.
fn fresh_reads(plan: &Plan, play: &Play) -> Reads
    requires { plan.now.cores ≤ MAX_CORES }
    ensures { result ≡ fresh_of plan.now play.now }
{
    let mut reads = Reads::empty();
    for core in 0..plan.cores {
        reads.push(play.start.max(play.touched[core as usize]));
    }
    reads
}

/// Notes that the entry, which ends at that position, touches its cores.
fn touch(touched: &mut [Pos; MAX_CORES], entry: &Entry, end: Pos)
    ensures { (c : ℕ) → c < MAX_CORES →
        slice_index touched.new c ≡ cond (touches c entry.now) end (slice_index touched.old c) }
{
    for core in 0..MAX_CORES {
        if entry.touches(core as CoreId) {
            touched[core] = end;
        }
    }
}

/// Adds an entry that is legal next to a history, and to what is kept of it.
pub(crate) fn append(
    alloc: Global,
    policy: &Policy,
    plan: &Plan,
    past: &mut Past,
    history: &mut History,
    entry: &Entry,
) -> Result<(), ModelMemory>
    requires fits { Fits (meaning_of policy.now) plan.now }
    requires handlers { MeetsHandlerObligations (meaning_of policy.now) }
    requires stands { StandsFor (meaning_of policy.now) plan.now past.old history.old }
    requires belongs { IsPastOf (meaning_of policy.now) plan.now past.old }
    requires legal { LegalNext (meaning_of policy.now) plan.now history.old entry.now }
    requires room { length history.old < MAX_ENTRIES }
    ensures stands { OnOk result (StandsFor (meaning_of policy.now) plan.now past.new (history.old ++ entry.now ∷ [])) }
    ensures belongs { OnOk result (IsPastOf (meaning_of policy.now) plan.now past.new) }
    ensures history { OnOk result (history.new ≡ history.old ++ entry.now ∷ []) }
{
    step(alloc, policy, plan, past, *entry)?;
    history.push(*entry)?;
    Ok(())
}

/// Adds an entry of a core that is legal next.
fn add(
    alloc: Global,
    policy: &Policy,
    plan: &Plan,
    play: &mut Play,
    entry: Entry,
) -> Result<(), ModelMemory>
    requires fits { Fits (meaning_of policy.now) plan.now }
    requires handlers { MeetsHandlerObligations (meaning_of policy.now) }
    requires play { IsPlay (meaning_of policy.now) plan.now play.old }
    requires inner { IsFalse (is_round entry) }
    requires legal { LegalNext (meaning_of policy.now) plan.now play.old.history entry }
    requires room { length play.old.history < MAX_ENTRIES }
    ensures { OnOk result (HasAdded (meaning_of policy.now) plan.now entry play.old play.new) }
{
    append(
        alloc,
        policy,
        plan,
        &mut play.past,
        &mut play.history,
        &entry,
    )?;
    touch(&mut play.touched, &entry, play.history.len());
    Ok(())
}

/// Takes the core's next step, if its turn isn't over. Whether it took one.
pub(crate) fn advance(
    alloc: Global,
    policy: &Policy,
    plan: &Plan,
    play: &mut Play,
    core: CoreId,
) -> Result<bool, ModelMemory>
    requires fits { Fits (meaning_of policy.now) plan.now }
    requires handlers { MeetsHandlerObligations (meaning_of policy.now) }
    requires play { IsPlay (meaning_of policy.now) plan.now play.old }
    requires begun { 0 < play.old.past.rounds }
    requires core { core < plan.now.cores }
    requires room { HasRoom (meaning_of policy.now) plan.now play.old.history }
    ensures { IfOk result (Advances (meaning_of policy.now) plan.now core play.old play.new) }
{
    let fresh = fresh_reads(plan, play);
    let look = play.looks[core as usize];
    match next_step(policy, plan, &play.past, core, &fresh, look) {
        NextStep::Adds(entry) => {
            add(alloc, policy, plan, play, entry)?;
            Ok(true)
        }
        NextStep::Looks => {
            play.looks[core as usize] = Some(fresh);
            Ok(true)
        }
        NextStep::Over => Ok(false),
    }
}
