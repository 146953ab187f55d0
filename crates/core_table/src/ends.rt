//! How a table is laid out, and what is taken out of it in the end.

ghost use Rattle.std.specs.Prelude.{◌≡◌, ◌+◌, ◌≤◌, [], IfOk, length, vec_capacity};
ghost use Rattle.policy_tree.specs.Meaning.{meaning_of};
ghost use Rattle.policy_eval.specs.Obligations.{MeetsHandlerObligations};
ghost use Rattle.round_model.specs.Fits.{Fits};
ghost use Rattle.round_model.specs.Limits.{IsWithinLimits};
ghost use Rattle.core_table.specs.Ends.{AllLaid, CoresLaid, IsClosed};
ghost use Rattle.core_table.specs.Opened.{Sits};
ghost use Rattle.core_table.specs.Told.{HasAllBack, IsKnown};
ghost use Rattle.core_table.specs.Views.{first_view};

use crate::fault::TableFault;
use crate::plays::{Opening, Place, Rule};
use crate::slots::{RoundLog, Slot};
use crate::views::View;
use core_state::{Closed, CoreState, StateMemory};
use policy_tree::Policy;
use round_model::{ConstList, Plan};
use sched_base::MAX_ATTRIBUTES;
use std::alloc::{AllocError, Global};
use std::snapshot::Snapshot;

/// The words and the slots, with the rule.
pub type Inner = atomic_table::Table<Slot, View, Opening, Rule, Global>;

/// A copy of the constants of each core.
pub(crate) fn copy_consts(
    alloc: Global,
    consts: &ConstList,
) -> Result<Vec<[i32; MAX_ATTRIBUTES]>, AllocError>
    ensures { IfOk result (λ v. v.items ≡ consts.now) }
{
    let mut copies = Vec::with_capacity(alloc, consts.len() as usize)?;
    for each in consts.as_slice() {
        copies.push_reserved(*each);
    }
    Ok(copies)
}

/// A slot for each core, and room for one more.
fn lay_cores(alloc: Global, policy: &Policy, plan: &Plan) -> Result<Vec<Slot>, StateMemory>
    requires { Fits (meaning_of policy.now) plan.now }
    ensures cores { IfOk result (λ v. CoresLaid (meaning_of policy.now) plan.now v.items plan.now.cores) }
    ensures room { IfOk result (λ v. plan.now.cores + 1 ≤ vec_capacity v) }
{
    let mut slots = Vec::with_capacity(alloc, plan.cores as usize + 1)?;
    for core in 0..plan.cores {
        slots.push_reserved(Slot::Core(CoreState::open(alloc, policy, plan, core)?));
    }
    Ok(slots)
}

/// A slot for each core, and one for the log of the rounds.
fn lay_slots(alloc: Global, policy: &Policy, plan: &Plan) -> Result<Vec<Slot>, StateMemory>
    requires { Fits (meaning_of policy.now) plan.now }
    ensures { IfOk result (λ v. AllLaid (meaning_of policy.now) plan.now v.items) }
{
    let mut slots = lay_cores(alloc, policy, plan)?;
    slots.push_reserved(Slot::Rounds(RoundLog::with_room(alloc, plan.limit)?));
    Ok(slots)
}

/// The words and slots before the first entry, and the opening seat.
pub(crate) fn open(
    alloc: Global,
    policy: &Policy,
    plan: &Plan,
) -> Result<(Inner, Place), TableFault>
    requires fits { Fits (meaning_of policy.now) plan.now }
    requires limits { IsWithinLimits plan.now }
    requires handlers { MeetsHandlerObligations (meaning_of policy.now) }
    ensures sits { IfOk result (λ t. Sits t.0.shared.table_id t.0.shared.key t.1.table_id t.1.me.0) }
    ensures key { IfOk result (λ t. (t.0.shared.key.policy.value ≡ policy.now)
        × (t.0.shared.key.plan.value ≡ plan.now)) }
    ensures seat { IfOk result (λ t. t.1.me ≡ (first_view policy.now plan.now, [])) }
    ensures known { IfOk result (λ t. IsKnown t.1.me.0) }
{
    let slots = lay_slots(alloc, policy, plan)?;
    let words = Vec::from_elem(alloc, 0u64, plan.cores as usize + 2)?;
    let opening = Opening {
        policy: Snapshot::of(policy),
        plan: Snapshot::of(plan),
    };
    match Inner::new(alloc, words.as_slice(), slots, &opening) {
        Ok(made) => Ok(made),
        Err(_) => Err(TableFault::Memory),
    }
}

/// The cores and the logs at the end. The cores come into the vector, which has room for them.
pub(crate) fn close(table: Inner, place: Place, cores: u32, mut room: Vec<CoreState>) -> Closed
    requires table { Sits table.shared.table_id table.shared.key place.table_id place.me.0 }
    requires cores { cores ≡ table.shared.key.plan.value.cores }
    requires back { HasAllBack place.me.0 }
    requires free { place.me.0.held ≡ [] }
    requires room { (length room.items ≡ 0) × (cores ≤ vec_capacity room) }
    ensures closed { IsClosed place.me.0 result }
{
    let mut closed = table.close_with(place);
    for core in 0..cores {
        let Slot::Core(state) = closed.take(core as usize) else {
            unreachable!()
        };
        room.push_reserved(state);
    }
    let Slot::Rounds(rounds) = closed.take(cores as usize) else {
        unreachable!()
    };
    closed.free();
    Closed::new(room, rounds.into_entries())
}
