//! How a core that acts is made.

ghost use Rattle.std.specs.Prelude.{◌≡◌, ◌<◌};
ghost use Rattle.core_table.specs.Public.{plan_of, policy_of};
ghost use Rattle.core_calls.specs.Actors.{core_of, table_of};

use crate::actor::Actor;
use core_table::Table;
use policy_tree::Policy;
use round_model::Plan;
use sched_base::CoreId;

impl<'a> Actor<'a> {
    /// That core at that table.
    pub fn new(table: &'a Table, policy: &'a Policy, plan: &'a Plan, core: CoreId) -> Actor<'a>
        requires policy { policy.now ≡ policy_of table.now }
        requires plan { plan.now ≡ plan_of table.now }
        requires core { core < (plan_of table.now).cores }
        ensures table { table_of result ≡ table.now }
        ensures core { core_of result ≡ core }
    {
        Actor {
            table,
            policy,
            plan,
            core,
        }
    }
}
