//! Systems from the rows of cases.

ghost use Rattle.std.specs.Prelude.{◌≡◌, ◌<◌, ◌≤◌, ◌++◌, ◌∷◌, [], IfOk, All, length, map};
ghost use Rattle.std.specs.List.{AllByRecursion};
ghost use Rattle.linear_form.specs.System.{IsBound, IsRow};
ghost use Rattle.policy_tree.specs.Meaning.{meaning_of};
ghost use Rattle.policy_eval.specs.Resolved.{IsResolved};
ghost use Rattle.obligations.specs.Marks.{HasSmallTerms, declared_bound, placed_by, up_to};
ghost use Rattle.obligations.specs.Systems.{bound_of};

use crate::placing::placed;
use crate::premises::{greatest_weight, least_weight};
use crate::rows::Rows;
use linear_form::{AtomFault, Bound, Row, System};
use policy_tree::variables::{
    FRESH, OTHER_ATTRIBUTES, OTHER_LOAD, OTHER_NR, SELF_ATTRIBUTES, SELF_LOAD, SELF_NR,
    THREAD_ATTRIBUTES, WEIGHT,
};
use policy_tree::{AttrList, Policy};
use sched_base::{MAX_ROWS, MAX_THREADS, MAX_VARIABLES};
use std::alloc::{AllocError, Global};

/// The system with these ranges and rows.
pub fn system_of(
    alloc: Global,
    bounds: &[Bound],
    rows: &Rows,
    places: &[u32; MAX_VARIABLES],
) -> Result<System, AllocError>
    requires few { length bounds.now ≤ MAX_VARIABLES }
    requires bounds { All IsBound bounds.now }
    requires short { length rows.now ≤ MAX_ROWS }
    requires terms { AllByRecursion HasSmallTerms rows.now }
    requires fits { All (IsRow (length bounds.now)) (map (placed_by places.now) rows.now) }
    ensures bounds { IfOk result (λ s. s.bounds ≡ bounds.now) }
    ensures rows { IfOk result (λ s. s.rows ≡ map (placed_by places.now) rows.now) }
{
    let mut system = System::new(alloc, Vec::from_slice(alloc, bounds)?);
    for row in rows.as_slice() {
        system = with_row(system, placed(alloc, row, places)?)?;
    }
    Ok(system)
}

/// The system with one more row. There is room for it.
fn with_row(mut system: System, row: Row) -> Result<System, AllocError>
    requires room { length system.rows < MAX_ROWS }
    requires row { IsRow (length system.bounds) row }
    ensures bounds { IfOk result (λ s. s.bounds ≡ system.bounds) }
    ensures rows { IfOk result (λ s. s.rows ≡ system.rows ++ row ∷ []) }
{
    match system.add_atom(row) {
        Ok(()) => Ok(system),
        Err(AtomFault::Memory) => Err(AllocError),
        Err(AtomFault::Full) => unreachable!(),
    }
}

/// The ranges of variables.
pub fn bounds_of(alloc: Global, policy: &Policy, vars: &[u32]) -> Result<Vec<Bound>, AllocError>
    requires policy { IsResolved (meaning_of policy.now) }
    requires known { AllByRecursion (λ v. v < MAX_VARIABLES) vars.now }
    ensures { IfOk result (λ bounds. bounds.items ≡ map (bound_of (meaning_of policy.now)) vars.now) }
{
    let mut bounds = Vec::new(alloc);
    for variable in vars {
        bounds.push(bound_of(policy, *variable))?;
    }
    Ok(bounds)
}

/// The range of a variable.
fn bound_of(policy: &Policy, variable: u32) -> Bound
    requires policy { IsResolved (meaning_of policy.now) }
    requires known { variable < MAX_VARIABLES }
    ensures { result ≡ bound_of (meaning_of policy.now) variable }
{
    let greatest = greatest_weight(policy.load);
    match variable {
        SELF_NR | OTHER_NR => up_to(i64::from(MAX_THREADS)),
        SELF_LOAD | OTHER_LOAD => up_to(i64::from(MAX_THREADS) * i64::from(greatest)),
        WEIGHT => Bound {
            lo: i64::from(least_weight(policy.load)),
            hi: i64::from(greatest),
        },
        FRESH => up_to(1),
        _ => attribute_bound(policy, variable),
    }
}

/// The range of an attribute's variable.
fn attribute_bound(policy: &Policy, variable: u32) -> Bound
    requires policy { IsResolved (meaning_of policy.now) }
    requires attribute { SELF_ATTRIBUTES ≤ variable }
    ensures { result ≡ bound_of (meaning_of policy.now) variable }
{
    if variable < OTHER_ATTRIBUTES {
        declared_bound(&policy.core_attrs, variable - SELF_ATTRIBUTES)
    } else if variable < THREAD_ATTRIBUTES {
        declared_bound(&policy.core_attrs, variable - OTHER_ATTRIBUTES)
    } else {
        declared_bound(&policy.thread_attrs, variable - THREAD_ATTRIBUTES)
    }
}

/// From 0 to that number.
fn up_to(hi: i64) -> Bound
    ensures { result ≡ up_to hi }
{
    Bound { lo: 0, hi }
}

/// The declared range of an attribute, or 0 alone where none is declared.
fn declared_bound(attrs: &AttrList, at: u32) -> Bound
    ensures { result ≡ declared_bound attrs.now at }
{
    match attrs.as_slice().get(at as usize) {
        Some(attr) => Bound {
            lo: i64::from(attr.lo),
            hi: i64::from(attr.hi),
        },
        None => up_to(0),
    }
}
