//! What a core sees of the cores as they are.

ghost use Rattle.std.specs.Prelude.{◌≡◌, ◌<◌, ◌≤◌, ℕ, All, IfSome, Some, length, option_map};
ghost use Rattle.policy_tree.specs.Meaning.{Meaning, meaning_of};
ghost use Rattle.policy_eval.specs.Obligations.{MeetsHandlerObligations};
ghost use Rattle.round_model.specs.declared.plan.Plan.{Plan};
ghost use Rattle.round_model.specs.After.{after};
ghost use Rattle.round_model.specs.Choices.{choice_of, target_of, values_in};
ghost use Rattle.round_model.specs.Cores.{seen_of};
ghost use Rattle.round_model.specs.Fits.{Fits};
ghost use Rattle.round_model.specs.Limits.{IsWithinLimits};
ghost use Rattle.round_model.specs.Reads.{values_of as values_by};
ghost use Rattle.round_model.specs.Scenes.{waking_next};
ghost use Rattle.core_moves.specs.Code.Changes.{HoldsAt, IsCountable};
ghost use Rattle.core_moves.specs.Cores.{AreReached};
ghost use Rattle.core_moves.specs.Sights.{OfEach, reads_now, values_now};

use crate::cores::Cores;
use core_state::end_of;
use policy_eval::CoreValues;
use policy_tree::Policy;
use round_model::state::CountAndLoad;
use round_model::{Plan, choice, target, values_of};
use sched_base::{CoreId, MAX_CORES, Reads, ThreadId};

impl Cores {
    /// What a core that looks just now reads: of each core the position behind the last entry that touched it, or the
    /// round's start where that is later.
    pub fn fresh_reads(&self, plan: &Plan) -> Reads
        requires { (p : Meaning) × Fits p plan.now × AreReached p plan.now self.now }
        ensures { (p : Meaning) (core : ℕ) →
            OfEach p plan.now self.now (λ history. result ≡ reads_now p plan.now history core) }
    {
        let mut reads = Reads::empty();
        for core in 0..plan.cores {
            reads.push(self.start().max(end_of(self.core(core).entries())));
        }
        reads
    }

    /// The blocked thread of the core that wakes next, if one may wake in that round.
    pub fn due(&self, core: CoreId, round: u32) -> Option<ThreadId>
        requires { core < length self.now.cores }
        ensures { (p : Meaning) (plan : Plan) → OfEach p plan self.now (λ history. core < plan.cores →
            result ≡ option_map (λ b. b.task.id) (waking_next round (after p plan history core))) }
    {
        self.core(core).due(round)
    }

    /// The choice of the core, by what it reads just now.
    pub fn choice(&self, policy: &Policy, plan: &Plan, core: CoreId) -> Option<CoreId>
        requires fits { Fits (meaning_of policy.now) plan.now }
        requires limits { IsWithinLimits plan.now }
        requires handlers { MeetsHandlerObligations (meaning_of policy.now) }
        requires reached { AreReached (meaning_of policy.now) plan.now self.now }
        requires core { core < plan.now.cores }
        ensures choice { OfEach (meaning_of policy.now) plan.now self.now (λ history. result ≡ choice_of
            (meaning_of policy.now) plan.now.cores (values_now (meaning_of policy.now) plan.now history core) core) }
        ensures there { IfSome result (λ v. v < plan.now.cores) }
    {
        let mut values = CoreValues::NOTHING_SEEN;
        self.see_all(plan, &mut values);
        choice(policy, &values[..plan.cores as usize], core)
    }

    /// The core on which the core places a thread, by what it reads just now.
    pub fn target(&self, policy: &Policy, plan: &Plan, core: CoreId) -> CoreId
        requires fits { Fits (meaning_of policy.now) plan.now }
        requires limits { IsWithinLimits plan.now }
        requires handlers { MeetsHandlerObligations (meaning_of policy.now) }
        requires reached { AreReached (meaning_of policy.now) plan.now self.now }
        requires core { core < plan.now.cores }
        ensures { OfEach (meaning_of policy.now) plan.now self.now (λ history. target_of (meaning_of policy.now)
            plan.now.cores (values_now (meaning_of policy.now) plan.now history core) core ≡ Some result) }
    {
        let mut values = CoreValues::NOTHING_SEEN;
        self.see_all(plan, &mut values);
        target(policy, &values[..plan.cores as usize], core)
    }

    /// Writes what is to be seen of each core of the plan as it is, in its place.
    fn see_all(&self, plan: &Plan, values: &mut [CoreValues; MAX_CORES])
        requires few { plan.now.cores ≤ MAX_CORES }
        requires consts { length plan.now.consts ≡ plan.now.cores }
        requires cores { length self.now.cores ≡ plan.now.cores }
        requires countable { All IsCountable self.now.cores }
        ensures len { length values.new ≡ MAX_CORES }
        ensures each { (c : ℕ) → HoldsAt self.now.cores c
            (λ y. values_in values.new c ≡ values_by plan.now c (seen_of y.core)) }
    {
        for core in 0..plan.cores {
            values[core as usize] = self.present(plan, core);
        }
    }

    /// What is to be seen of the core as it is.
    fn present(&self, plan: &Plan, core: CoreId) -> CoreValues
        requires consts { core < length plan.now.consts }
        requires core { core < length self.now.cores }
        requires countable { All IsCountable self.now.cores }
        ensures { HoldsAt self.now.cores core (λ y. result ≡ values_by plan.now core (seen_of y.core)) }
    {
        let state = self.core(core);
        let seen = CountAndLoad {
            nr: state.nr(),
            load: state.load(),
        };
        values_of(plan, core, seen)
    }
}
