//! Where a core places a thread, by the cores as they are.

ghost use Rattle.std.specs.Prelude.{◌≡◌, ◌<◌, Some};
ghost use Rattle.policy_tree.specs.Meaning.{meaning_of};
ghost use Rattle.policy_eval.specs.Obligations.{MeetsHandlerObligations};
ghost use Rattle.round_model.specs.Choices.{target_of};
ghost use Rattle.round_model.specs.Outcomes.{values_at};
ghost use Rattle.round_model.specs.Fits.{Fits};
ghost use Rattle.round_model.specs.Limits.{IsWithinLimits};
ghost use Rattle.serial_steps.specs.Turns.{placement_by};
ghost use Rattle.serial_steps.specs.Serial.{SerialState};
ghost use Rattle.core_moves.specs.Sights.{reads_now};
ghost use Rattle.core_worker.specs.Runs.{IsAt, IsMoment};

use crate::run::Run;
use policy_tree::{PlaceRule, Policy};
use round_model::Plan;
use sched_base::{CoreId, Reads};

impl Run {
    /// Where the core places a thread just now, and what it reads for that.
    pub(crate) fn placement(&self, policy: &Policy, plan: &Plan, core: CoreId) -> (CoreId, Reads)
        requires fits { Fits (meaning_of policy.now) plan.now }
        requires limits { IsWithinLimits plan.now }
        requires handlers { MeetsHandlerObligations (meaning_of policy.now) }
        requires at { IsAt (meaning_of policy.now) plan.now (λ s. Unit {0}) self.now }
        requires core { core < plan.now.cores }
        ensures reads { (s : SerialState) → IsMoment (meaning_of policy.now) plan.now self.now s → result.1
            ≡ placement_by (meaning_of policy.now).place (reads_now (meaning_of policy.now) plan.now s.history core) }
        ensures target { (s : SerialState) → IsMoment (meaning_of policy.now) plan.now self.now s →
            target_of (meaning_of policy.now) plan.now.cores
            (values_at (meaning_of policy.now) plan.now s.history result.1) core ≡ Some result.0 }
    {
        match &policy.place {
            PlaceRule::Here => (core, Reads::empty()),
            PlaceRule::Least(_) => (
                self.cores.target(policy, plan, core),
                self.cores.fresh_reads(plan),
            ),
        }
    }
}
