//! The round that is played.

ghost use Rattle.std.specs.Prelude.{◌≡◌};
ghost use Rattle.core_table.specs.Public.{plan_of, policy_of};

use core_table::Table;
use policy_tree::Policy;
use round_model::Plan;

/// The round that is played: at which table, under the policy and the plan of that table, and its number.
#[derive(Clone, Copy)]
pub struct Stage<'a> {
    pub table: &'a Table,
    pub policy: &'a Policy,
    pub plan: &'a Plan,
    pub round: u32,
    ghost under: { policy.now ≡ policy_of table.now },
    ghost of: { plan.now ≡ plan_of table.now },
}
