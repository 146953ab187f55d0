//! The steals of stretches.

ghost use Rattle.std.specs.Prelude.{◌≡◌, ◌≤◌, ◌<◌, ◌^◌, ℕ, All, IfOk, IsTrue, List, length, map, slice_index_or};
ghost use Rattle.sched_base.specs.declared.limits.TheConstants.{MAX_ENTRIES};
ghost use Rattle.policy_tree.specs.Meaning.{Meaning};
ghost use Rattle.round_model.specs.declared.entry.Entry.{Entry};
ghost use Rattle.round_model.specs.declared.plan.Plan.{Plan};
ghost use Rattle.round_model.specs.Kinds.{is_steal as steals};
ghost use Rattle.round_model.specs.Legal.{Legal};
ghost use Rattle.round_model.specs.Stretches.{IsStillStretch};
ghost use Rattle.sched_report.specs.StretchRows.{HasSteals, steals_within, still_of};
ghost use Rattle.sched_report.specs.Code.Steals.{AreSteals, MayBeCounted, counts_with};

use crate::rows::{StillRow, StretchRow, StretchRows};
use crate::totals::is_steal;
use lists::Items;
use round_model::Entry;
use std::alloc::{AllocError, Global};

/// Of each round, in order, how many threads are stolen in it so far.
pub(crate) type StealCounts = Items<u32>;

/// How many threads are stolen in each round of a legal history, round by round.
pub(crate) fn steals_of_rounds(alloc: Global, history: &[Entry]) -> Result<StealCounts, AllocError>
    requires legal { (p : Meaning) × (plan : Plan) × Legal p plan history.now }
    requires few { length history.now ≤ MAX_ENTRIES }
    ensures { IfOk result (AreSteals history.now) }
{
    let mut counts = StealCounts::from_vec(Vec::new(alloc));
    for entry in history {
        note_steal(&mut counts, entry)?;
    }
    Ok(counts)
}

/// Takes the entry into the counts.
fn note_steal(counts: &mut StealCounts, entry: &Entry) -> Result<(), AllocError>
    requires room { length counts.old < MAX_ENTRIES }
    requires begun { IsTrue (steals entry.now) → 1 ≤ length counts.old }
    requires small { (k : ℕ) → slice_index_or counts.old k 0 ≤ MAX_ENTRIES }
    ensures { IfOk result (λ _. counts.new ≡ counts_with entry.now counts.old) }
{
    if entry.is_round() {
        return counts.push(0);
    }
    if is_steal(entry) {
        let last = counts.len() - 1;
        let before = *counts.get(last);
        let _before = counts.replace(last, before + 1);
    }
    Ok(())
}

/// The rows with the steals of their stretches.
pub(crate) fn with_steals(
    alloc: Global,
    stills: &[StillRow],
    counts: &[u32],
) -> Result<StretchRows, AllocError>
    requires counted { (history : List Entry) × MayBeCounted history stills.now counts.now }
    requires few { length stills.now < 2 ^ 32 }
    ensures stills { IfOk result (λ rows. map still_of rows ≡ stills.now) }
    ensures steals { (history : List Entry) → MayBeCounted history stills.now counts.now →
        IfOk result (All (HasSteals history)) }
{
    let mut rows = StretchRows::from_vec(Vec::new(alloc));
    for still in stills {
        rows.push(StretchRow {
            still: *still,
            steals: steals_in(counts, still),
        })?;
    }
    Ok(rows)
}

/// How many threads are stolen in the rounds of the stretch.
fn steals_in(counts: &[u32], still: &StillRow) -> u32
    requires counted { (history : List Entry) × AreSteals history counts.now × (length history ≤ MAX_ENTRIES)
        × IsStillStretch history still.now.first still.now.last }
    ensures { (history : List Entry) → AreSteals history counts.now →
        IsStillStretch history still.now.first still.now.last →
        result ≡ steals_within history still.now.first still.now.last }
{
    let mut steals = 0;
    for before in still.first - 1..still.last {
        steals += counts[before as usize];
    }
    steals
}
