//! The obligations of a policy as systems.

ghost use Rattle.std.specs.Prelude.{◌≡◌, ℕ, ◌↔◌, ◌<◌, ◌≤◌, Err, IfOk, Some, All, None, length, map, nat_lt};
ghost use Rattle.std.specs.Prelude.{slice_index_or, vec_len};
ghost use Rattle.std.specs.List.{AllByRecursion};
ghost use Rattle.linear_form.specs.System.{IsBound};
ghost use Rattle.policy_tree.specs.Meaning.{meaning_of};
ghost use Rattle.policy_eval.specs.Resolved.{IsResolved};
ghost use Rattle.obligations.specs.declared.making.ObligeFault.TheVariants.{Cases};
ghost use Rattle.obligations.specs.Counts.{case_count, first_crowded};
ghost use Rattle.obligations.specs.Demands.{statement_seen};
ghost use Rattle.obligations.specs.Laws.{SayTheStatements};
ghost use Rattle.obligations.specs.Marks.{AlwaysMarked, AreCases, HasSmallTerms, IsUnmarked, placed_systems, stays};
ghost use Rattle.obligations.specs.Names.{ob_names, statement_of};
ghost use Rattle.obligations.specs.Systems.{always_has, bound_of, kept_below, obligation_of, obligations_of, place_of};
ghost use Rattle.obligations.specs.Systems.{question_of};

use crate::assembling::{bounds_of, system_of};
use crate::crowding::first_crowded;
use crate::marking::mark_cases;
use crate::names::{ObName, ob_names};
use crate::obligation::{Obligation, Obligations, Question};
use crate::placing::{Places, places_of};
use crate::refuting::refuting_cases;
use crate::rows::Rows;
use crate::statements::{Statement, statement_of};
use linear_form::{Bound, System};
use lists::Items;
use policy_tree::Policy;
use policy_tree::variables::WEIGHT;
use sched_base::{MAX_SYSTEM_CASES, MAX_VARIABLES};
use std::alloc::{AllocError, Global};

/// Why the obligations of a policy weren't made into systems.
#[derive(Clone, Copy)]
pub enum ObligeFault {
    /// The obligation has more than `MAX_SYSTEM_CASES` conjunctive cases, and how many. A count past `MAX_COUNT` is
    /// reported as `MAX_COUNT`.
    Cases(ObName, u32),
    /// There was no memory for the systems.
    Memory,
}

/// The obligations of a resolved policy, each with its variables and systems.
///
/// All cases are counted before one of them is made, and counting takes no memory. Time and memory are linear in the
/// rows that come out and in the policy's text, up to a factor that limits bound: a condition is gone over again for
/// each level of parentheses and `not`s round it, and a guard for each other guard of its handler.
pub fn oblige(alloc: Global, policy: &Policy) -> Result<Obligations, ObligeFault>
    requires { IsResolved (meaning_of policy.now) }
    ensures crowded { (name : ObName) (count : ℕ) → (result ≡ Err (Cases name count)) ↔
        (first_crowded (meaning_of policy.now) ob_names ≡ Some (name, count)) }
    ensures ok { IfOk result (λ all. all ≡ obligations_of (meaning_of policy.now)) }
    ensures says { IfOk result (λ all. SayTheStatements (meaning_of policy.now) all) }
{
    if let Some((name, count)) = first_crowded(policy) {
        return Err(ObligeFault::Cases(name, count));
    }
    match obligations_of(alloc, policy) {
        Ok(all) => Ok(all),
        Err(_unmade) => Err(ObligeFault::Memory),
    }
}

/// One obligation of a resolved policy. The cases of all obligations are counted before one of it is made.
pub fn oblige_one(alloc: Global, policy: &Policy, name: ObName) -> Result<Obligation, ObligeFault>
    requires { IsResolved (meaning_of policy.now) }
    ensures crowded { (crowd : ObName) (count : ℕ) → (result ≡ Err (Cases crowd count)) ↔
        (first_crowded (meaning_of policy.now) ob_names ≡ Some (crowd, count)) }
    ensures ok { IfOk result (λ ob. ob ≡ obligation_of (meaning_of policy.now) name) }
{
    if let Some((crowd, count)) = first_crowded(policy) {
        return Err(ObligeFault::Cases(crowd, count));
    }
    match obligation_of(alloc, policy, name) {
        Ok(ob) => Ok(ob),
        Err(_unmade) => Err(ObligeFault::Memory),
    }
}

/// The obligations of a policy of which none has too many cases.
fn obligations_of(alloc: Global, policy: &Policy) -> Result<Obligations, AllocError>
    requires policy { IsResolved (meaning_of policy.now) }
    requires few { first_crowded (meaning_of policy.now) ob_names ≡ None }
    ensures { IfOk result (λ all. all ≡ obligations_of (meaning_of policy.now)) }
{
    let mut all = Vec::new(alloc);
    for name in ob_names() {
        all.push(obligation_of(alloc, policy, *name)?)?;
    }
    Ok(Items::from_vec(all))
}

/// The obligation of that name, which hasn't too many cases.
fn obligation_of(alloc: Global, policy: &Policy, name: ObName) -> Result<Obligation, AllocError>
    requires policy { IsResolved (meaning_of policy.now) }
    requires few { case_count (meaning_of policy.now) (statement_of name) ≤ MAX_SYSTEM_CASES }
    ensures { IfOk result (λ ob. ob ≡ obligation_of (meaning_of policy.now) name) }
{
    let question = question_of(alloc, policy, statement_of(name))?;
    Ok(Obligation {
        name,
        vars: question.vars,
        systems: question.systems,
    })
}

/// The statement, which hasn't too many cases, as its variables and its systems.
pub(crate) fn question_of(
    alloc: Global,
    policy: &Policy,
    statement: Statement,
) -> Result<Question, AllocError>
    requires policy { IsResolved (meaning_of policy.now) }
    requires few { case_count (meaning_of policy.now) (statement_seen statement) ≤ MAX_SYSTEM_CASES }
    ensures { IfOk result (λ q. q ≡ question_of (meaning_of policy.now) (statement_seen statement)) }
{
    let cases = refuting_cases(alloc, policy, statement)?;
    let kept = places_in(alloc, statement, cases.as_slice())?;
    let systems = systems_in(alloc, policy, &kept, cases.as_slice())?;
    Ok(Question {
        vars: Items::from_vec(kept.vars),
        systems: Items::from_vec(systems),
    })
}

/// The variables of a statement that fails in these cases, and their places.
fn places_in(alloc: Global, statement: Statement, cases: &[Rows]) -> Result<Places, AllocError>
    requires small { AllByRecursion (AllByRecursion HasSmallTerms) cases.now }
    ensures vars { IfOk result (λ p.
        p.vars.items ≡ kept_below (stays (statement_seen statement) cases.now) MAX_VARIABLES) }
    ensures few { IfOk result (λ p. vec_len p.vars ≤ MAX_VARIABLES) }
    ensures places { IfOk result (λ p. (v : ℕ) → v < MAX_VARIABLES →
        slice_index_or p.places v 0 ≡ place_of (stays (statement_seen statement) cases.now) v) }
{
    let mut marks = [false; MAX_VARIABLES];
    mark_always(&mut marks, statement);
    mark_cases(&mut marks, cases);
    places_of(alloc, &marks)
}

/// The systems of the cases over the places of their variables.
fn systems_in(
    alloc: Global,
    policy: &Policy,
    kept: &Places,
    cases: &[Rows],
) -> Result<Vec<System>, AllocError>
    requires policy { IsResolved (meaning_of policy.now) }
    requires few { length kept.now.vars.items ≤ MAX_VARIABLES }
    requires known { AllByRecursion (λ v. v < MAX_VARIABLES) kept.now.vars.items }
    requires cases { AreCases (length kept.now.vars.items) kept.now.places cases.now }
    ensures systems { IfOk result (λ systems. systems.items ≡
        placed_systems (map (bound_of (meaning_of policy.now)) kept.now.vars.items) kept.now.places cases.now) }
    ensures count { IfOk result (λ systems. vec_len systems ≡ length cases.now) }
{
    let bounds = bounds_of(alloc, policy, kept.vars.as_slice())?;
    systems_of(alloc, bounds.as_slice(), cases, &kept.places)
}

/// Marks the variables that a statement has also where no row has them.
fn mark_always(marks: &mut [bool; MAX_VARIABLES], statement: Statement)
    requires { IsUnmarked marks.old }
    ensures { AlwaysMarked marks.new (statement_seen statement) }
{
    for variable in 0..always_count(statement) {
        marks[variable] = true;
    }
}

/// How many of the first variables a statement always has: a statement on a pair of cores those of the pair.
fn always_count(statement: Statement) -> usize
    ensures few { result ≤ MAX_VARIABLES }
    ensures value { (v : ℕ) → always_has (statement_seen statement) v ≡ nat_lt v result }
{
    match statement {
        Statement::IdleSeesOverloaded
        | Statement::VictimIsOverloaded
        | Statement::MoveNarrowsGap
        | Statement::FurtherMoveNarrowsGap
        | Statement::FilterLeavesLast
        | Statement::BatchLeavesLast
        | Statement::RestGap(_) => WEIGHT as usize,
        Statement::NoOverlap(_) | Statement::NoGap(_) => 0,
    }
}

/// The systems of the cases.
fn systems_of(
    alloc: Global,
    bounds: &[Bound],
    cases: &[Rows],
    places: &[u32; MAX_VARIABLES],
) -> Result<Vec<System>, AllocError>
    requires few { length bounds.now ≤ MAX_VARIABLES }
    requires bounds { All IsBound bounds.now }
    requires cases { AreCases (length bounds.now) places.now cases.now }
    ensures systems { IfOk result (λ systems. systems.items ≡ placed_systems bounds.now places.now cases.now) }
    ensures count { IfOk result (λ systems. vec_len systems ≡ length cases.now) }
{
    let mut systems = Vec::new(alloc);
    for rows in cases {
        systems.push(system_of(alloc, bounds, rows, places)?)?;
    }
    Ok(systems)
}
