//! What a history comes to.

ghost use Rattle.std.specs.Prelude.{◌≡◌, ◌<◌, ◌≤◌, ◌^◌, count_by, length, sum_by};
ghost use Rattle.sched_base.specs.declared.limits.TheConstants.{MAX_ENTRIES};
ghost use Rattle.round_model.specs.Kinds.{is_fail as fails, is_round, is_steal as steals};
ghost use Rattle.sched_report.specs.Reports.{totals_of as totals};
ghost use Rattle.sched_report.specs.RoundRows.{is_bad as is_bad_round};
ghost use Rattle.sched_report.specs.declared.rows.RoundRow.{RoundRow};

use crate::rows::{RoundRow, Totals};
use crate::stretches::is_bad;
use round_model::Entry;

/// The totals of a history with these rounds.
#[tactic(auto, unfolding(crate::specs::Reports::totals_of))]
pub(crate) fn totals_of(history: &[Entry], rounds: &[RoundRow]) -> Totals
    requires few { length history.now ≤ MAX_ENTRIES }
    requires few_rounds { length rounds.now ≤ MAX_ENTRIES }
    requires small { sum_by (λ (row : RoundRow). row.idle) rounds.now < 2 ^ 32 }
    ensures { result ≡ totals history.now rounds.now }
{
    Totals {
        rounds: round_count(history),
        entries: history.len() as u32,
        steals: steal_count(history),
        fails: fail_count(history),
        bad: bad_count(rounds),
        wasted: rounds.iter().map(|row| row.idle).sum(),
    }
}

/// How many of the entries begin a round.
fn round_count(history: &[Entry]) -> u32
    requires { length history.now ≤ MAX_ENTRIES }
    ensures { result ≡ count_by is_round history.now }
{
    history.iter().filter(|entry| entry.is_round()).count() as u32
}

/// How many of the entries take a thread.
fn steal_count(history: &[Entry]) -> u32
    requires { length history.now ≤ MAX_ENTRIES }
    ensures { result ≡ count_by steals history.now }
{
    history.iter().filter(|entry| is_steal(entry)).count() as u32
}

/// How many of the entries are steals that fail.
fn fail_count(history: &[Entry]) -> u32
    requires { length history.now ≤ MAX_ENTRIES }
    ensures { result ≡ count_by fails history.now }
{
    history.iter().filter(|entry| is_fail(entry)).count() as u32
}

/// How many of the rounds are bad.
fn bad_count(rounds: &[RoundRow]) -> u32
    requires { length rounds.now ≤ MAX_ENTRIES }
    ensures { result ≡ count_by is_bad_round rounds.now }
{
    rounds.iter().filter(|row| is_bad(row)).count() as u32
}

/// Whether a core takes a thread in the entry.
pub(crate) fn is_steal(entry: &Entry) -> bool
    ensures { result ≡ steals entry.now }
{
    matches!(entry, Entry::Steal { .. })
}

/// Whether a steal fails in the entry.
fn is_fail(entry: &Entry) -> bool
    ensures { result ≡ fails entry.now }
{
    matches!(entry, Entry::Fail { .. })
}
