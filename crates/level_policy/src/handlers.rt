//! Copies of handlers, equal to what they are copies of in everything but the places where they lie.

ghost use Rattle.std.specs.Prelude.{◌≡◌, IfOk, map};
ghost use Rattle.policy_tree.specs.Meaning.{case_tree, handler_trees, set_tree};

use lists::Items;
use policy_tree::{Case, CaseList, HandlerList, Set, SetList, copy_of_cond, copy_of_expr};
use std::alloc::{AllocError, Global};

/// A copy of the cases of each event.
pub(crate) fn copy_of_handlers(
    alloc: Global,
    handlers: &HandlerList,
) -> Result<HandlerList, AllocError>
    ensures { IfOk result (λ copy. handler_trees copy ≡ handler_trees handlers.now) }
{
    let on_enqueue = copy_of_cases(alloc, &handlers.on_enqueue)?;
    let on_tick = copy_of_cases(alloc, &handlers.on_tick)?;
    let on_yield = copy_of_cases(alloc, &handlers.on_yield)?;
    let on_block = copy_of_cases(alloc, &handlers.on_block)?;
    Ok(HandlerList::new(on_enqueue, on_tick, on_yield, on_block))
}

/// A copy of the cases of an event.
fn copy_of_cases(alloc: Global, cases: &CaseList) -> Result<CaseList, AllocError>
    ensures { IfOk result (λ copy. map case_tree copy ≡ map case_tree cases.now) }
{
    let cases = cases.as_slice();
    let mut copy = Vec::new(alloc);
    for case in cases {
        copy.push(copy_of_case(alloc, case)?)?;
    }
    Ok(Items::from_vec(copy))
}

/// A copy of a case.
fn copy_of_case(alloc: Global, case: &Case) -> Result<Case, AllocError>
    ensures { IfOk result (λ copy. case_tree copy ≡ case_tree case.now) }
{
    Ok(Case {
        guard: copy_of_cond(alloc, &case.guard)?,
        sets: copy_of_sets(alloc, &case.sets)?,
        put: case.put,
    })
}

/// A copy of the assignments of a case.
fn copy_of_sets(alloc: Global, sets: &SetList) -> Result<SetList, AllocError>
    ensures { IfOk result (λ copy. map set_tree copy ≡ map set_tree sets.now) }
{
    let sets = sets.as_slice();
    let mut copy = Vec::new(alloc);
    for set in sets {
        copy.push(copy_of_set(alloc, set)?)?;
    }
    Ok(Items::from_vec(copy))
}

/// A copy of an assignment.
fn copy_of_set(alloc: Global, set: &Set) -> Result<Set, AllocError>
    ensures { IfOk result (λ copy. set_tree copy ≡ set_tree set.now) }
{
    Ok(Set {
        attr: set.attr,
        expr: copy_of_expr(alloc, &set.expr)?,
    })
}
