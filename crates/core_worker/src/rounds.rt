//! Serial play over running cores, round by round.

ghost use Rattle.std.specs.Prelude.{◌≡◌, IfErr, IfOk};
ghost use Rattle.policy_tree.specs.Meaning.{meaning_of};
ghost use Rattle.policy_eval.specs.Obligations.{MeetsHandlerObligations};
ghost use Rattle.round_model.specs.Fits.{Fits};
ghost use Rattle.round_model.specs.Limits.{IsWithinLimits};
ghost use Rattle.serial_steps.specs.SerialRounds.{with_round};
ghost use Rattle.serial_steps.specs.Serial.{SerialState};
ghost use Rattle.core_worker.specs.Played.{IsFaultOf, PlaysWhole};
ghost use Rattle.core_worker.specs.Runs.{IsRunOf, MayBegin};

use crate::fault::PlayFault;
use crate::run::Run;
use core_state::Closed;
use policy_tree::Policy;
use round_model::Plan;
use serial_steps::round_fits;
use std::alloc::Global;

/// Serial play of the plan under the policy, as far as the plan's limit lets it come.
///
/// Before each round all entries that it may have must fit the limit: its beginning, two for each core, and one for
/// each thread.
pub fn play_rounds(alloc: Global, policy: &Policy, plan: &Plan) -> Result<Closed, PlayFault>
    requires fits { Fits (meaning_of policy.now) plan.now }
    requires limits { IsWithinLimits plan.now }
    requires handlers { MeetsHandlerObligations (meaning_of policy.now) }
    ensures whole { IfOk result (PlaysWhole (meaning_of policy.now) plan.now) }
    ensures fault { IfErr result (IsFaultOf (meaning_of policy.now) plan.now) }
{
    let mut run = Run::open(alloc, policy, plan)?;
    for begun in 0..plan.rounds {
        if !run.is_due(plan) {
            return Ok(run.cores.close());
        }
        if !round_fits(plan, run.cores.entries()) {
            return Err(PlayFault::HistoryFull(run.cores.close()));
        }
        run.play_round(policy, plan, begun + 1);
    }
    Ok(run.cores.close())
}

impl Run {
    /// Plays the round of that number.
    fn play_round(&mut self, policy: &Policy, plan: &Plan, number: u32)
        requires fits { Fits (meaning_of policy.now) plan.now }
        requires limits { IsWithinLimits plan.now }
        requires handlers { MeetsHandlerObligations (meaning_of policy.now) }
        requires may { (s : SerialState) × MayBegin (meaning_of policy.now) plan.now number self.old s }
        ensures { (s : SerialState) → MayBegin (meaning_of policy.now) plan.now number self.old s →
            (t : SerialState) × (t.history ≡ with_round (meaning_of policy.now) plan.now s.history number)
            × IsRunOf (meaning_of policy.now) plan.now self.new t }
    {
        self.begin(policy, plan, number);
        self.take_ordered(policy, plan, number);
        self.end_turns(policy, plan);
    }
}
