//! A history in memory from its beginning on: the rounds that begin, and whose turn it is.

ghost use Rattle.std.specs.Prelude.{◌≡◌, ◌<◌, ◌≤◌, [], IfOk, IsTrue, length};
ghost use Rattle.sched_base.specs.declared.limits.TheConstants.{MAX_ENTRIES};
ghost use Rattle.policy_tree.specs.Meaning.{meaning_of};
ghost use Rattle.policy_eval.specs.Obligations.{MeetsHandlerObligations};
ghost use Rattle.round_model.specs.After.{round_of};
ghost use Rattle.round_model.specs.Fits.{Fits};
ghost use Rattle.round_model.specs.Legal.{Legal};
ghost use Rattle.round_model.specs.Limits.{IsWithinLimits};
ghost use Rattle.turn_tests.specs.Memory.{HasBegun, IsKept, IsReady, IsSameMemory, MayBegin, core_of, history_of};
ghost use Rattle.turn_tests.specs.Memory.{meaning_in_memory, plan_of, policy_of};

use crate::memory_calls::MemoryCalls;
use policy_tree::Policy;
use round_judge::{Past, round_due};
use round_model::{Entry, History, ModelMemory, Plan};
use sched_base::CoreId;
use serial_steps::round_fits;
use std::alloc::Global;
use std::sync::Wait;

impl<'a> MemoryCalls<'a> {
    /// No entry yet. The first round is to begin.
    pub fn open(
        alloc: Global,
        policy: &'a Policy,
        plan: &'a Plan,
    ) -> Result<MemoryCalls<'a>, ModelMemory>
        requires fits { Fits (meaning_of policy.now) plan.now }
        requires limits { IsWithinLimits plan.now }
        requires handlers { MeetsHandlerObligations (meaning_of policy.now) }
        ensures kept { IfOk result IsKept }
        ensures of { IfOk result (λ it. (policy_of it ≡ policy.now) × (plan_of it ≡ plan.now)) }
        ensures empty { IfOk result (λ it. history_of it ≡ []) }
    {
        let past = Past::new(alloc, plan)?;
        Ok(MemoryCalls {
            alloc,
            policy,
            plan,
            core: 0,
            past,
            history: History::from_vec(Vec::new(alloc)),
            none_due: false,
        })
    }

    /// The next round begins, and it is core 0's turn: where the last one is complete, a next one is due, and all that
    /// it may add fits the plan's limit. It says whether it began.
    pub fn begin_round<R: Wait>(&mut self, rt: &R) -> bool
        requires kept { IsKept self.old }
        ensures kept { IsKept self.new }
        ensures same { IsSameMemory self.old self.new }
        ensures begun { IsTrue result → HasBegun self.old self.new }
    {
        if !self.may_begin() {
            return false;
        }
        let number = self.past.rounds() + 1;
        self.add(rt, &Entry::Round { number });
        self.core = 0;
        self.none_due = false;
        true
    }

    /// Whether the next round may begin.
    fn may_begin(&self) -> bool
        requires { IsKept self.now }
        ensures { IsTrue result → MayBegin self.now }
    {
        if !self.past.is_complete() {
            return false;
        }
        if !round_due(self.plan, &self.past) {
            return false;
        }
        round_fits(self.plan, self.history.len())
    }

    /// From now on it is that core's turn, which has added nothing in the open round.
    pub fn pass_to(&mut self, core: CoreId)
        requires ready { IsReady self.old }
        requires core { core < (plan_of self.old).cores }
        ensures ready { IsReady self.new }
        ensures same { IsSameMemory self.old self.new }
        ensures core { core_of self.new ≡ core }
        ensures history { history_of self.new ≡ history_of self.old }
    {
        self.core = core;
        self.none_due = false;
    }

    /// The number of the open round.
    pub fn round(&self) -> u32
        requires { IsKept self.now }
        ensures { result ≡ round_of (history_of self.now) }
    {
        self.past.rounds()
    }

    /// The entries, which are a legal history.
    pub fn into_history(self) -> History
        requires { IsKept self }
        ensures history { result ≡ history_of self.entry }
        ensures legal { Legal (meaning_in_memory self.entry) (plan_of self.entry) result }
        ensures few { length result ≤ MAX_ENTRIES }
    {
        self.history
    }
}
