//! A core that acts.

ghost use Rattle.std.specs.Prelude.{◌≡◌, ◌<◌};
ghost use Rattle.core_table.specs.Public.{plan_of, policy_of};

use core_table::Table;
use policy_tree::Policy;
use round_model::Plan;
use sched_base::CoreId;

/// A core that acts: its number and its table, and the policy and the plan with which that was opened. No step changes
/// any of these, and each is lent the core's seat.
#[derive(Clone, Copy)]
pub struct Actor<'a> {
    pub(crate) table: &'a Table,
    pub(crate) policy: &'a Policy,
    pub(crate) plan: &'a Plan,
    pub(crate) core: CoreId,
    ghost under: { policy.now ≡ policy_of table.now },
    ghost of: { plan.now ≡ plan_of table.now },
    ghost there: { core < (plan_of table.now).cores },
}
