//! How far serial play has come, and the beginning of a round.

ghost use Rattle.std.specs.Prelude.{◌≡◌, ◌==◌, ◌≤◌, [], IfOk, None, filter, length, map, vec_capacity};
ghost use Rattle.policy_tree.specs.Meaning.{Meaning, meaning_of};
ghost use Rattle.policy_eval.specs.Obligations.{MeetsHandlerObligations};
ghost use Rattle.round_model.specs.declared.plan.Planned.{Planned};
ghost use Rattle.round_model.specs.Fits.{Fits};
ghost use Rattle.round_model.specs.Legal.{is_due as is_due_after};
ghost use Rattle.round_model.specs.Limits.{IsWithinLimits};
ghost use Rattle.round_judge.specs.Past.{arrival_of};
ghost use Rattle.serial_steps.specs.Serial.{SerialState};
ghost use Rattle.core_worker.specs.Runs.{IsMoment, IsRunOf, MayBegin, opened};

use crate::turn::Turns;
use core_moves::Cores;
use core_state::StateMemory;
use lists::Items;
use policy_tree::Policy;
use round_judge::{Arrival, is_due_by};
use round_model::Plan;
use sched_base::MAX_THREADS;
use std::alloc::Global;

/// How far serial play has come.
#[derive(Drop)]
pub(crate) struct Run {
    pub(crate) cores: Cores,
    /// The number of the open round, and 0 before the first.
    pub(crate) round: u32,
    pub(crate) turns: Turns,
    /// The threads that are still to enter in the open round.
    pub(crate) arrivals: Vec<Arrival>,
    /// Of each number, whether the thread has ended.
    pub(crate) ended: Items<bool>,
}

impl Run {
    /// The run before the first entry.
    pub(crate) fn open(alloc: Global, policy: &Policy, plan: &Plan) -> Result<Run, StateMemory>
        requires fits { Fits (meaning_of policy.now) plan.now }
        requires limits { IsWithinLimits plan.now }
        ensures { IfOk result (λ run.
            IsRunOf (meaning_of policy.now) plan.now run (record { history = []; looks = λ c. None })) }
    {
        Ok(Run {
            cores: Cores::open(alloc, policy, plan)?,
            round: 0,
            turns: Turns::begun(),
            arrivals: Vec::with_capacity(alloc, plan.threads.len() as usize)?,
            ended: Items::from_vec(Vec::from_elem(alloc, false, MAX_THREADS as usize + 1)?),
        })
    }

    /// Whether a next round is due.
    pub(crate) fn is_due(&self, plan: &Plan) -> bool
        ensures { (p : Meaning) (s : SerialState) → IsRunOf p plan.now self.now s →
            result ≡ is_due_after plan.now s.history }
    {
        is_due_by(plan, self.round, &self.ended)
    }

    /// The round of that number begins.
    pub(crate) fn begin(&mut self, policy: &Policy, plan: &Plan, number: u32)
        requires fits { Fits (meaning_of policy.now) plan.now }
        requires handlers { MeetsHandlerObligations (meaning_of policy.now) }
        requires may { (s : SerialState) × MayBegin (meaning_of policy.now) plan.now number self.old s }
        ensures { (s : SerialState) → MayBegin (meaning_of policy.now) plan.now number self.old s →
            IsMoment (meaning_of policy.now) plan.now self.new (opened s.history number) }
    {
        self.cores.begin(number);
        self.round = number;
        self.turns.begin();
        await_all(&mut self.arrivals, plan, number);
    }
}

/// The threads of the plan that enter in the round of that number. They have room.
fn await_all(arrivals: &mut Vec<Arrival>, plan: &Plan, number: u32)
    requires { length plan.now.threads ≤ vec_capacity arrivals.old }
    ensures threads { arrivals.new.items
        ≡ map arrival_of (filter (λ (t : Planned). t.round == number) plan.now.threads) }
    ensures room { vec_capacity arrivals.new ≡ vec_capacity arrivals.old }
{
    arrivals.clear();
    for thread in plan.threads.as_slice() {
        if thread.round == number {
            arrivals.push_reserved(Arrival {
                id: thread.id,
                core: thread.core,
            });
        }
    }
}
