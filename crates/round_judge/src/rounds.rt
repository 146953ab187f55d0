//! What changes in a past as a round begins.

ghost use Rattle.std.specs.Prelude.{◌≡◌, ◌+◌, ◌==◌, ◌<◌, ℕ, List, [], ◌∷◌, IfOk, Some, false, filter, length, map};
ghost use Rattle.std.specs.Prelude.{replicate, slice_get};
ghost use Rattle.round_model.specs.declared.state.CountAndLoad.{CountAndLoad};
ghost use Rattle.round_model.specs.declared.plan.Planned.{Planned};
ghost use Rattle.round_judge.specs.Past.{arrival_of};

use crate::past::{Arrival, Row, Turn};
use lists::Items;
use round_model::{ModelMemory, Plan};
use std::alloc::Global;

/// The threads of the plan that enter in the round of that number.
pub(crate) fn arrivals_of(
    alloc: Global,
    plan: &Plan,
    number: u32,
) -> Result<Items<Arrival>, ModelMemory>
    ensures { IfOk result (λ arrivals.
        arrivals ≡ map arrival_of (filter (λ (t : Planned). t.round == number) plan.now.threads)) }
{
    let mut arrivals = Items::from_vec(Vec::new(alloc));
    for at in 0..plan.threads.len() {
        let thread = plan.threads.get(at);
        if thread.round == number {
            arrivals.push(Arrival {
                id: thread.id,
                core: thread.core,
            })?;
        }
    }
    Ok(arrivals)
}

/// Each core at the beginning of its turn.
pub(crate) fn clear_turns(turns: &mut Items<Turn>)
    ensures { turns.new ≡ replicate (length turns.old) (record { worked = false; attempted = false }) }
{
    for at in 0..turns.len() {
        let _turn = turns.replace(at, Turn::begun());
    }
}

/// The newest row alone: nothing changed since it was seen.
pub(crate) fn keep_newest(rows: &mut Items<Row>)
    requires { 0 < length rows.old }
    ensures { (row : List CountAndLoad) (k : ℕ) → slice_get rows.old k ≡ Some row → k + 1 ≡ length rows.old →
        rows.new ≡ row ∷ [] }
{
    let row = *rows.get(rows.len() - 1);
    rows.truncate(1);
    let _row = rows.replace(0, row);
}
