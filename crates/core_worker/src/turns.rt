//! The steps of several cores, one after the other.

ghost use Rattle.std.specs.Prelude.{◌<◌, All, replicate};
ghost use Rattle.policy_tree.specs.Meaning.{meaning_of};
ghost use Rattle.policy_eval.specs.Obligations.{MeetsHandlerObligations};
ghost use Rattle.round_model.specs.Fits.{Fits};
ghost use Rattle.round_model.specs.Limits.{IsWithinLimits};
ghost use Rattle.serial_steps.specs.SerialRounds.{most_steps as most_steps_of, order_of, remaining_turns};
ghost use Rattle.core_worker.specs.Runs.{IsAt, Moves};

use crate::run::Run;
use policy_tree::Policy;
use round_model::Plan;
use sched_base::CoreId;
use serial_steps::{most_steps, ordered_cores};

impl Run {
    /// A step of each core in the order that the plan has for the round of that number.
    pub(crate) fn take_ordered(&mut self, policy: &Policy, plan: &Plan, number: u32)
        requires fits { Fits (meaning_of policy.now) plan.now }
        requires limits { IsWithinLimits plan.now }
        requires handlers { MeetsHandlerObligations (meaning_of policy.now) }
        requires at { IsAt (meaning_of policy.now) plan.now (λ s. Unit {0}) self.old }
        ensures { Moves (meaning_of policy.now) plan.now (order_of plan.now number) self.old self.new }
    {
        self.take_steps(policy, plan, ordered_cores(plan, number));
    }

    /// A step of each of these cores, one after the other.
    fn take_steps(&mut self, policy: &Policy, plan: &Plan, cores: &[CoreId])
        requires fits { Fits (meaning_of policy.now) plan.now }
        requires limits { IsWithinLimits plan.now }
        requires handlers { MeetsHandlerObligations (meaning_of policy.now) }
        requires at { IsAt (meaning_of policy.now) plan.now (λ s. Unit {0}) self.old }
        requires cores { All (λ c. c < plan.now.cores) cores.now }
        ensures { Moves (meaning_of policy.now) plan.now cores.now self.old self.new }
    {
        for core in cores {
            let _more = self.advance(policy, plan, *core);
        }
    }

    /// All steps that the cores have left in their turns, core by core.
    pub(crate) fn end_turns(&mut self, policy: &Policy, plan: &Plan)
        requires fits { Fits (meaning_of policy.now) plan.now }
        requires limits { IsWithinLimits plan.now }
        requires handlers { MeetsHandlerObligations (meaning_of policy.now) }
        requires at { IsAt (meaning_of policy.now) plan.now (λ s. Unit {0}) self.old }
        ensures { Moves (meaning_of policy.now) plan.now (remaining_turns plan.now) self.old self.new }
    {
        for core in 0..plan.cores {
            self.end_turn(policy, plan, core);
        }
    }

    /// All steps that the core has left in its turn.
    fn end_turn(&mut self, policy: &Policy, plan: &Plan, core: CoreId)
        requires fits { Fits (meaning_of policy.now) plan.now }
        requires limits { IsWithinLimits plan.now }
        requires handlers { MeetsHandlerObligations (meaning_of policy.now) }
        requires at { IsAt (meaning_of policy.now) plan.now (λ s. Unit {0}) self.old }
        requires core { core < plan.now.cores }
        ensures { Moves (meaning_of policy.now) plan.now (replicate (most_steps_of plan.now) core) self.old self.new }
    {
        for _step in 0..most_steps(plan) {
            if !self.advance(policy, plan, core) {
                return;
            }
        }
    }
}
