//! Longest stretches of still rounds.

ghost use Rattle.std.specs.Prelude.{◌≡◌, ◌+◌, ◌<◌, ◌≤◌, ◌++◌, IfOk, IfSome, IsTrue, length, option_to_list};
ghost use Rattle.sched_base.specs.declared.limits.TheConstants.{MAX_ENTRIES};
ghost use Rattle.round_model.specs.Rounds.{disturbs as disturbs_round, is_leaving as leaves};
ghost use Rattle.sched_report.specs.declared.rows.StillRow.{StillRow};
ghost use Rattle.sched_report.specs.RoundRows.{is_bad as is_bad_round};
ghost use Rattle.sched_report.specs.Rests.{rest_told};
ghost use Rattle.sched_report.specs.Code.Runs.{AreNumbered, AreRuns, flags_with, grown_row};

use crate::rows::{RestRow, RoundRow, StillRow, StillRows};
use lists::Items;
use round_model::{Did, Entry};
use std::alloc::{AllocError, Global};

/// Of each round, in order, whether nobody entered, woke, blocked or ended in it so far.
pub(crate) type Flags = Items<bool>;

/// Takes the entry into the flags.
pub(crate) fn note_still(still: &mut Flags, entry: &Entry) -> Result<(), AllocError>
    requires room { length still.old < MAX_ENTRIES }
    requires begun { IsTrue (disturbs_round entry.now) → 1 ≤ length still.old }
    ensures { IfOk result (λ _. still.new ≡ flags_with entry.now still.old) }
{
    if entry.is_round() {
        return still.push(true);
    }
    if disturbs(entry) {
        let _before = still.replace(still.len() - 1, false);
    }
    Ok(())
}

/// Whether a thread comes to the run queues or leaves them in the entry.
fn disturbs(entry: &Entry) -> bool
    ensures { result ≡ disturbs_round entry.now }
{
    match entry {
        Entry::Enter { .. } | Entry::Wake { .. } => true,
        Entry::Work { did, .. } => is_leaving(did),
        Entry::Round { .. } | Entry::Steal { .. } => false,
        Entry::Fail { .. } | Entry::Pass { .. } => false,
    }
}

/// Whether the thread leaves the run queues, for good or for some rounds.
fn is_leaving(did: &Did) -> bool
    ensures { result ≡ leaves did.now }
{
    match did {
        Did::Nothing | Did::Kept(_) | Did::Queued(_) => false,
        Did::Blocked(_) | Did::Ended(_) => true,
    }
}

/// The rows of the longest stretches of still rounds.
pub(crate) fn stretches_of(
    alloc: Global,
    rounds: &[RoundRow],
    still: &[bool],
) -> Result<StillRows, AllocError>
    requires flags { length still.now ≡ length rounds.now }
    requires numbered { AreNumbered rounds.now }
    requires few { length rounds.now ≤ MAX_ENTRIES }
    ensures { IfOk result (AreRuns still.now rounds.now) }
{
    let mut done = StillRows::from_vec(Vec::new(alloc));
    let mut current = None;
    for at in 0..rounds.len() {
        if !still[at] {
            close(&mut done, current)?;
            current = None;
            continue;
        }
        current = Some(grown(current, &rounds[at]));
    }
    close(&mut done, current)?;
    Ok(done)
}

/// Adds the row of the open stretch, if there is one.
fn close(done: &mut StillRows, current: Option<StillRow>) -> Result<(), AllocError>
    requires { length done.old ≤ MAX_ENTRIES }
    ensures { IfOk result (λ _. done.new ≡ done.old ++ option_to_list current) }
{
    match current {
        None => Ok(()),
        Some(row) => done.push(row),
    }
}

/// The row of the open stretch with a still round more. With no open stretch one begins.
fn grown(current: Option<StillRow>, row: &RoundRow) -> StillRow
    requires { IfSome current (λ (stretch : StillRow). stretch.bad ≤ MAX_ENTRIES) }
    ensures { result ≡ grown_row current row.now }
{
    let bad = u32::from(is_bad(row));
    match current {
        None => StillRow {
            first: row.number,
            last: row.number,
            spread: row.spread,
            bad,
            rest: rest_of(row),
        },
        Some(stretch) => StillRow {
            last: row.number,
            bad: stretch.bad + bad,
            rest: stretch.rest.or(rest_of(row)),
            ..stretch
        },
    }
}

/// What is told of rest, where the round opens with the cores at rest.
fn rest_of(row: &RoundRow) -> Option<RestRow>
    ensures { result ≡ rest_told row.now }
{
    let gap = row.rest?;
    Some(RestRow {
        round: row.number,
        gap,
    })
}

/// Whether some core is idle beside an overloaded one as the round opens.
pub(crate) fn is_bad(row: &RoundRow) -> bool
    ensures { result ≡ is_bad_round row.now }
{
    row.idle > 0
}
