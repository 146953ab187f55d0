//! Serial play of a worked plan.

ghost use Rattle.std.specs.Prelude.{◌≡◌, IfOk};
ghost use Rattle.policy_tree.specs.Meaning.{meaning_of};
ghost use Rattle.serial_steps.specs.SerialEnds.{IsPlayed};
ghost use Rattle.model_tests.specs.Plans.{two_cores};
ghost use Rattle.model_tests.specs.Policies.{basic};

use policy_tree::Policy;
use round_model::{ModelMemory, Plan};
use serial_play::play_rounds;
use serial_steps::Played;
use std::alloc::Global;

/// Serial play under the basic policy, with two cores and two threads without end.
pub fn play_of_two(alloc: Global, policy: &Policy, plan: &Plan) -> Result<Played, ModelMemory>
    requires policy { meaning_of policy.now ≡ basic }
    requires plan { plan.now ≡ two_cores }
    ensures { IfOk result (IsPlayed basic two_cores) }
{
    let played = play_rounds(alloc, policy, plan)?;
    Ok(played)
}
