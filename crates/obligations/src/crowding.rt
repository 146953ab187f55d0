//! How many cases the obligations of a policy have.

ghost use Rattle.std.specs.Prelude.{◌≡◌, map, option_map, true};
ghost use Rattle.policy_tree.specs.Meaning.{batch_tree, case_tree, meaning_of};
ghost use Rattle.obligations.specs.Counts.{case_count, count_of, first_crowded, reported};
ghost use Rattle.obligations.specs.Names.{ob_names};
ghost use Rattle.obligations.specs.Refutations.{goes_on_to_last, moves_over_small_gap};
ghost use Rattle.policy_tree.specs.declared.typed.Load.{Load};
ghost use Rattle.obligations.specs.Tallies.{guards_of, pair_count, gap_count};
ghost use Rattle.obligations.specs.Demands.{statement_seen};

use crate::counts::{count, product, sum};
use crate::names::{ObName, ob_names};
use crate::statements::{Statement, statement_of};
use policy_tree::{Batch, Case, Policy};
use sched_base::MAX_SYSTEM_CASES;

/// The first obligation that has too many cases, and how many. It takes no memory.
pub fn first_crowded(policy: &Policy) -> Option<(ObName, u32)>
    ensures { result ≡ first_crowded (meaning_of policy.now) ob_names }
{
    for name in ob_names() {
        let count = case_count(policy, statement_of(*name));
        if count > MAX_SYSTEM_CASES {
            return Some((*name, count));
        }
    }
    None
}

/// The number of cases in which the statement fails.
fn case_count(policy: &Policy, statement: Statement) -> u32
    ensures { result ≡ reported (case_count (meaning_of policy.now) (statement_seen statement)) }
{
    match statement {
        Statement::IdleSeesOverloaded | Statement::RestGap(_) => count(&policy.filter, false),
        Statement::VictimIsOverloaded | Statement::MoveNarrowsGap | Statement::FilterLeavesLast =>
            count(&policy.filter, true),
        Statement::FurtherMoveNarrowsGap | Statement::BatchLeavesLast => {
            further_count(&policy.batch)
        }
        Statement::NoOverlap(event) => pair_count(policy.handlers.cases(event).as_slice()),
        Statement::NoGap(event) => gap_count(policy.handlers.cases(event).as_slice()),
    }
}

/// The number of cases in which a batch goes on, none without a batch.
fn further_count(batch: &Option<Batch>) -> u32
    ensures gap { (load : Load) →
        result ≡ reported (count_of true (moves_over_small_gap load (option_map batch_tree batch.now))) }
    ensures last { (load : Load) →
        result ≡ reported (count_of true (goes_on_to_last load (option_map batch_tree batch.now))) }
{
    match batch {
        Some(batch) => count(&batch.cond, true),
        None => 0,
    }
}

/// The number of cases in which the guards of two cases hold together.
fn pair_count(cases: &[Case]) -> u32
    ensures { result ≡ reported (pair_count (guards_of (map case_tree cases.now))) }
{
    let mut pairs = 0;
    let mut earlier = 0;
    for case in cases {
        let own = count(&case.guard, true);
        pairs = sum(pairs, product(earlier, own));
        earlier = sum(earlier, own);
    }
    pairs
}

/// The number of cases in which no guard holds.
pub fn gap_count(cases: &[Case]) -> u32
    ensures { result ≡ reported (gap_count (guards_of (map case_tree cases.now))) }
{
    let mut gaps = 1;
    for case in cases {
        gaps = product(gaps, count(&case.guard, false));
    }
    gaps
}
