//! The cases in which a statement fails.

ghost use Rattle.std.specs.Prelude.{◌≡◌, ◌++◌, IfOk, map, option_map, true, false};
ghost use Rattle.std.specs.List.{AllByRecursion};
ghost use Rattle.policy_tree.specs.Meaning.{batch_tree, case_tree, meaning_of};
ghost use Rattle.policy_tree.specs.Trees.{both, cond_tree, negated};
ghost use Rattle.policy_eval.specs.Forms.{EachSide, IsLinear};
ghost use Rattle.policy_eval.specs.Resolved.{IsResolved, IsWeightRange};
ghost use Rattle.obligations.specs.Cases.{cases_of, crossed};
ghost use Rattle.obligations.specs.Demands.{statement_seen};
ghost use Rattle.obligations.specs.Refutations.{all_of, any_of, both_of, goes_on_to_last, moves_over_small_gap};
ghost use Rattle.obligations.specs.Refutations.{pairs_of};
ghost use Rattle.obligations.specs.Systems.{refuting_cases};
ghost use Rattle.obligations.specs.Tallies.{guards_of};

use crate::building::cases_of;
use crate::counts::count;
use crate::crossing::{cases_of_always, crossed, joined};
use crate::crowding::gap_count;
use crate::premises::{
    busier_beside_two, busy_beside_two, idle_beside_overloaded, next_and_small_gap,
    thread_and_small_gap, victim_of_one, wide_gap,
};
use crate::rows::Rows;
use crate::statements::Statement;
use policy_tree::{Batch, Case, Cond, Load, Policy};
use std::alloc::{AllocError, Global};

/// The cases in which the statement fails.
pub fn refuting_cases(
    alloc: Global,
    policy: &Policy,
    statement: Statement,
) -> Result<Vec<Rows>, AllocError>
    requires { IsResolved (meaning_of policy.now) }
    ensures { IfOk result (λ cases. cases.items ≡ refuting_cases (meaning_of policy.now) (statement_seen statement)) }
{
    let load = policy.load;
    match statement {
        Statement::IdleSeesOverloaded => {
            let premise = idle_beside_overloaded(alloc, load)?;
            with_condition(alloc, load, &premise, &policy.filter, false)
        }
        Statement::VictimIsOverloaded => {
            let premise = victim_of_one(alloc, load)?;
            with_condition(alloc, load, &premise, &policy.filter, true)
        }
        Statement::MoveNarrowsGap => {
            let premise = thread_and_small_gap(alloc, load)?;
            with_condition(alloc, load, &premise, &policy.filter, true)
        }
        Statement::FurtherMoveNarrowsGap => further_cases(alloc, load, &policy.batch),
        Statement::NoOverlap(event) => {
            overlap_cases(alloc, load, policy.handlers.cases(event).as_slice())
        }
        Statement::NoGap(event) => gap_cases(alloc, load, policy.handlers.cases(event).as_slice()),
        Statement::FilterLeavesLast => {
            let premise = busy_beside_two(alloc, load)?;
            with_condition(alloc, load, &premise, &policy.filter, true)
        }
        Statement::BatchLeavesLast => last_cases(alloc, load, &policy.batch),
        Statement::RestGap(gap) => {
            let premise = wide_gap(alloc, load, gap)?;
            with_condition(alloc, load, &premise, &policy.filter, false)
        }
    }
}

/// The cases in which the batch moves one thread more over a small gap, none without a batch.
fn further_cases(alloc: Global, load: Load, batch: &Option<Batch>) -> Result<Vec<Rows>, AllocError>
    requires load { IsWeightRange load }
    requires batch { EachSide IsLinear (moves_over_small_gap load (option_map batch_tree batch.now)) }
    ensures { IfOk result (λ cases. cases.items ≡
        cases_of load true (moves_over_small_gap load (option_map batch_tree batch.now))) }
{
    match batch {
        Some(batch) => {
            let premise = next_and_small_gap(alloc, load)?;
            with_condition(alloc, load, &premise, &batch.cond, true)
        }
        None => Ok(Vec::new(alloc)),
    }
}

/// The cases in which the batch goes on to the last waiting thread although the thief has two, none without a batch.
fn last_cases(alloc: Global, load: Load, batch: &Option<Batch>) -> Result<Vec<Rows>, AllocError>
    requires load { IsWeightRange load }
    requires batch { EachSide IsLinear (goes_on_to_last load (option_map batch_tree batch.now)) }
    ensures { IfOk result (λ cases. cases.items ≡
        cases_of load true (goes_on_to_last load (option_map batch_tree batch.now))) }
{
    match batch {
        Some(batch) => {
            let premise = busier_beside_two(alloc, load)?;
            let goes_on = &batch.cond;
            with_condition(alloc, load, &premise, goes_on, true)
        }
        None => Ok(Vec::new(alloc)),
    }
}

/// The cases in which the premise holds and the condition has the outcome.
fn with_condition(
    alloc: Global,
    load: Load,
    premise: &Cond,
    condition: &Cond,
    outcome: bool,
) -> Result<Vec<Rows>, AllocError>
    requires load { IsWeightRange load }
    requires premise { EachSide IsLinear (cond_tree premise.now) }
    requires condition { EachSide IsLinear (cond_tree condition.now) }
    ensures { IfOk result (λ cases. cases.items ≡
        crossed (cases_of load true (cond_tree premise.now)) (cases_of load outcome (cond_tree condition.now))) }
{
    let given = cases_of(alloc, load, premise, true)?;
    crossed(alloc, given, cases_of(alloc, load, condition, outcome)?)
}

/// The cases in which two guards hold together.
fn overlap_cases(alloc: Global, load: Load, cases: &[Case]) -> Result<Vec<Rows>, AllocError>
    requires load { IsWeightRange load }
    requires linear { AllByRecursion (EachSide IsLinear) (guards_of (map case_tree cases.now)) }
    ensures { IfOk result (λ all. all.items ≡
        cases_of load true (any_of (map both_of (pairs_of (guards_of (map case_tree cases.now)))))) }
{
    let mut all = Vec::new(alloc);
    let mut rest = cases;
    while let Some((case, later)) = rest.split_first() {
        all = with_later(alloc, load, all, &case.guard, later)?;
        rest = later;
    }
    Ok(all)
}

/// Some cases, and those in which the guard holds together with one of the others.
fn with_later(
    alloc: Global,
    load: Load,
    mut all: Vec<Rows>,
    guard: &Cond,
    later: &[Case],
) -> Result<Vec<Rows>, AllocError>
    requires load { IsWeightRange load }
    requires guard { EachSide IsLinear (cond_tree guard.now) }
    requires linear { AllByRecursion (EachSide IsLinear) (guards_of (map case_tree later.now)) }
    ensures { IfOk result (λ more. more.items ≡ all.items ++
        cases_of load true (any_of (map both_of (map (λ h. (cond_tree guard.now, h))
        (guards_of (map case_tree later.now)))))) }
{
    for case in later {
        all = joined(all, pair_cases(alloc, load, guard, &case.guard)?)?;
    }
    Ok(all)
}

/// The cases in which both guards hold. Where one never does, none of the other is made.
fn pair_cases(alloc: Global, load: Load, left: &Cond, right: &Cond) -> Result<Vec<Rows>, AllocError>
    requires load { IsWeightRange load }
    requires left { EachSide IsLinear (cond_tree left.now) }
    requires right { EachSide IsLinear (cond_tree right.now) }
    ensures { IfOk result (λ cases. cases.items ≡ cases_of load true
        (both (cond_tree left.now) (cond_tree right.now))) }
{
    if count(left, true) == 0 || count(right, true) == 0 {
        return Ok(Vec::new(alloc));
    }
    let cases = cases_of(alloc, load, left, true)?;
    crossed(alloc, cases, cases_of(alloc, load, right, true)?)
}

/// The cases in which no guard holds.
fn gap_cases(alloc: Global, load: Load, cases: &[Case]) -> Result<Vec<Rows>, AllocError>
    requires load { IsWeightRange load }
    requires linear { AllByRecursion (EachSide IsLinear) (guards_of (map case_tree cases.now)) }
    ensures { IfOk result (λ all. all.items ≡
        cases_of load true (all_of (map negated (guards_of (map case_tree cases.now))))) }
{
    if gap_count(cases) == 0 {
        return Ok(Vec::new(alloc));
    }
    let mut all = cases_of_always(alloc, true)?;
    for case in cases {
        let fails = cases_of(alloc, load, &case.guard, false)?;
        all = crossed(alloc, all, fails)?;
    }
    Ok(all)
}
