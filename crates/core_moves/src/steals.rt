//! Threads that go over from one core to another.

ghost use Rattle.std.specs.Prelude.{◌≡◌, ◌≢◌, ◌<◌, length};
ghost use Rattle.policy_tree.specs.Meaning.{meaning_of};
ghost use Rattle.policy_eval.specs.Obligations.{MeetsHandlerObligations};
ghost use Rattle.policy_eval.specs.Ranges.{AreIn, attribute_ranges};
ghost use Rattle.policy_eval.specs.Resolved.{IsResolved};
ghost use Rattle.round_model.specs.After.{after};
ghost use Rattle.round_model.specs.Attempts.{moves_of};
ghost use Rattle.round_model.specs.Fits.{Fits};
ghost use Rattle.batch_moves.specs.Sides.{MayTake};
ghost use Rattle.core_moves.specs.Code.Steals.{HoldsOfTwo, Takes, TakesBetween};
ghost use Rattle.core_moves.specs.Cores.{AreReached};
ghost use Rattle.core_moves.specs.Sights.{OfEach};

use crate::cores::Cores;
use batch_moves::take_all;
use core_state::CoreState;
use policy_tree::Policy;
use round_model::Plan;
use sched_base::{CoreId, MAX_ATTRIBUTES, Stolen};

impl Cores {
    /// The core takes threads of the victim, by both as they are.
    pub(crate) fn steal(
        &mut self,
        policy: &Policy,
        plan: &Plan,
        core: CoreId,
        victim: CoreId,
    ) -> Stolen
        requires fits { Fits (meaning_of policy.now) plan.now }
        requires handlers { MeetsHandlerObligations (meaning_of policy.now) }
        requires reached { AreReached (meaning_of policy.now) plan.now self.old }
        requires core { core < plan.now.cores }
        requires victim { victim < plan.now.cores }
        requires apart { core ≢ victim }
        ensures threads { OfEach (meaning_of policy.now) plan.now self.old (λ history. result ≡ moves_of
            (meaning_of policy.now) plan.now core victim (meaning_of policy.now).batch
            (after (meaning_of policy.now) plan.now history core)
            (after (meaning_of policy.now) plan.now history victim)) }
        ensures cores { Takes (meaning_of policy.now) plan.now core victim result self.old self.new }
    {
        let own = plan.consts.get(core);
        let other = plan.consts.get(victim);
        let cores = self.cores.as_mut_slice();
        take_between(policy, own, other, cores, core as usize, victim as usize)
    }
}

/// The one of the cores takes threads of the other. `own` are its constants, and `other` the other's.
fn take_between(
    policy: &Policy,
    own: &[i32; MAX_ATTRIBUTES],
    other: &[i32; MAX_ATTRIBUTES],
    cores: &mut [CoreState],
    thief: usize,
    victim: usize,
) -> Stolen
    requires policy { IsResolved (meaning_of policy.now) }
    requires own { AreIn (attribute_ranges policy.now.core_attrs) own.now }
    requires other { AreIn (attribute_ranges policy.now.core_attrs) other.now }
    requires there { (thief < length cores.old) × (victim < length cores.old) }
    requires apart { thief ≢ victim }
    requires may { HoldsOfTwo cores.old thief victim (MayTake (meaning_of policy.now)) }
    ensures len { length cores.new ≡ length cores.old }
    ensures taken { TakesBetween (meaning_of policy.now) own.now other.now thief victim result cores.old cores.new }
{
    if thief < victim {
        let (front, back) = cores.split_at_mut(victim);
        take_all(policy, own, other, &mut front[thief], &mut back[0])
    } else {
        let (front, back) = cores.split_at_mut(thief);
        take_all(policy, own, other, &mut back[0], &mut front[victim])
    }
}
