//! A table with what it was opened with.

ghost use Rattle.std.specs.Prelude.{◌≡◌};
ghost use Rattle.core_table.specs.Public.{plan_of, policy_of};

use core_table::Table;
use policy_tree::Policy;
use round_model::Plan;

/// A table, with the policy and the plan with which it was opened.
#[derive(Clone, Copy)]
pub struct Game<'a> {
    pub table: &'a Table,
    pub policy: &'a Policy,
    pub plan: &'a Plan,
    ghost under: { policy.now ≡ policy_of table.now },
    ghost of: { plan.now ≡ plan_of table.now },
}
