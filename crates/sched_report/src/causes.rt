//! What explains a failed steal.

ghost use Rattle.std.specs.Prelude.{◌≢◌, ◌↔◌, ◌+◌, ◌<◌, IfOk, IsTrue, List, length};
ghost use Rattle.policy_tree.specs.Meaning.{Meaning};
ghost use Rattle.sched_base.specs.declared.limits.TheConstants.{MAX_ENTRIES};
ghost use Rattle.round_model.specs.declared.entry.Entry.{Entry};
ghost use Rattle.round_model.specs.declared.plan.Plan.{Plan};
ghost use Rattle.round_judge.specs.Past.{IsKeptPosition, IsWindow, StandsFor};
ghost use Rattle.sched_report.specs.Code.Causes.{AddsFail, AreKept, Changes, IsCauseIn, IsFailTold};
ghost use Rattle.sched_report.specs.Code.Causes.{MayBeTold};

use crate::rows::{CauseRow, CauseRows};
use round_judge::Past;
use round_model::Entry;
use round_model::state::CountAndLoad;
use sched_base::{CoreId, MAX_CORES, Pos, Reads};
use std::alloc::AllocError;

/// Adds the row of the entry, where a steal fails in it, after this past.
pub(crate) fn note_fail(
    causes: &mut CauseRows,
    past: &Past,
    entry: &Entry,
) -> Result<(), AllocError>
    requires room { length causes.old < MAX_ENTRIES }
    requires told { MayBeTold past.now entry.now }
    ensures { IfOk result (λ _. AddsFail past.now entry.now causes.old causes.new) }
{
    match *entry {
        Entry::Fail { by, from, reads } => causes.push(cause_row(past, by, from, &reads)),
        Entry::Round { .. } | Entry::Enter { .. } | Entry::Wake { .. } => Ok(()),
        Entry::Work { .. } | Entry::Steal { .. } | Entry::Pass { .. } => Ok(()),
    }
}

/// The row of a steal that fails after this past.
fn cause_row(past: &Past, by: CoreId, from: CoreId, reads: &Reads) -> CauseRow
    requires { AreKept past.now by from reads.now }
    ensures { IsFailTold past.now by from reads.now result }
{
    CauseRow {
        at: past.entries(),
        by: first_cause(past, by, from, reads),
    }
}

/// The first entry that changed what was read of the thief or of the victim.
fn first_cause(past: &Past, by: CoreId, from: CoreId, reads: &Reads) -> Option<Pos>
    requires { AreKept past.now by from reads.now }
    ensures { (p : Meaning) (plan : Plan) (history : List Entry) → StandsFor p plan past.now history →
        by < plan.cores → from < plan.cores →
        IsCauseIn p plan history by from reads.now result }
{
    let thief_read = reads.get(by);
    let victim_read = reads.get(from);
    for at in thief_read.min(victim_read)..past.entries() {
        if changes(past, by, thief_read, at) || changes(past, from, victim_read, at) {
            return Some(at);
        }
    }
    None
}

/// Whether the entry at that position changed what was read of the core.
fn changes(past: &Past, core: CoreId, read: Pos, at: Pos) -> bool
    requires window { IsWindow past.now }
    requires core { core < MAX_CORES }
    requires kept { IsKeptPosition past.now at }
    requires next { IsKeptPosition past.now (at + 1) }
    ensures { (p : Meaning) (plan : Plan) (history : List Entry) → StandsFor p plan past.now history →
        core < plan.cores → IsTrue result ↔ Changes p plan history core read at }
{
    read <= at && differ(past.seen_at(core, at), past.seen_at(core, at + 1))
}

/// Whether thread count or load differ.
fn differ(one: CountAndLoad, other: CountAndLoad) -> bool
    ensures { IsTrue result ↔ (one ≢ other) }
{
    one.nr != other.nr || one.load != other.load
}
