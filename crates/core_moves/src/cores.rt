//! All cores of a plan.

ghost use Rattle.std.specs.Prelude.{◌≡◌, ◌<◌, ◌≤◌, [], IfOk, List, Some, length, map, slice_get, vec_len};
ghost use Rattle.policy_tree.specs.Meaning.{Meaning, meaning_of};
ghost use Rattle.core_state.specs.Logs.{LogsOf};
ghost use Rattle.round_model.specs.declared.entry.Entry.{Entry};
ghost use Rattle.round_model.specs.declared.plan.Plan.{Plan};
ghost use Rattle.round_model.specs.Cores.{core_numbers};
ghost use Rattle.round_model.specs.Fits.{Fits};
ghost use Rattle.round_model.specs.Legal.{Legal};
ghost use Rattle.round_model.specs.Limits.{IsWithinLimits};
ghost use Rattle.core_moves.specs.Cores.{AreCoresOf, core_view};

use core_state::{Closed, CoreState, Logged, StateMemory};
use policy_tree::Policy;
use round_model::Plan;
use sched_base::{CoreId, MAX_CORES, Pos};
use std::alloc::Global;
use std::marker::Model;

/// The cores of a plan in the order of their numbers, at most `MAX_CORES`, with the log of the rounds that began.
#[derive(Drop)]
pub struct Cores {
    pub(crate) cores: Vec<CoreState>,
    pub(crate) rounds: Vec<Logged>,
    /// The position of the next entry.
    pub(crate) entries: Pos,
    /// The position just after the last Round, and 0 before the first.
    pub(crate) start: Pos,
}

impl Model for Cores {
    ghost use Rattle.std.specs.Prelude.{◌≤◌, vec_capacity, vec_len};
    ghost use Rattle.std.specs.Coded.{codes};
    ghost use Rattle.run_queue.specs.Code.Codes.{key_code};
    ghost use Rattle.sched_base.specs.declared.limits.TheConstants.{MAX_CORES};
    ghost use Rattle.core_moves.specs.Cores.{CoresView};

    ghost Value = { CoresView };

    ghost coded = { Prim.hlevel (codes, key_code) };

    ghost view = { λ c. record {
      cores = c.cores.items;
      rounds = c.rounds.items;
      entries = c.entries;
      start = c.start;
      rounds_room = vec_capacity c.rounds;
    } };

    ghost invariant = { λ c. vec_len c.cores ≤ MAX_CORES };
}

impl Cores {
    /// The cores before the first entry. Each has room for all threads, and each log for all entries.
    pub fn open(alloc: Global, policy: &Policy, plan: &Plan) -> Result<Cores, StateMemory>
        requires fits { Fits (meaning_of policy.now) plan.now }
        requires limits { IsWithinLimits plan.now }
        ensures { IfOk result (AreCoresOf (meaning_of policy.now) plan.now []) }
    {
        Ok(Cores {
            cores: open_all(alloc, policy, plan)?,
            rounds: Vec::with_capacity(alloc, plan.limit as usize)?,
            entries: 0,
            start: 0,
        })
    }

    /// The core of that number.
    pub fn core(&self, core: CoreId) -> &CoreState
        requires { core < length self.now.cores }
        ensures { slice_get self.now.cores core ≡ Some result.now }
    {
        &self.cores[core as usize]
    }

    /// The position of the next entry.
    pub fn entries(&self) -> Pos
        ensures { result ≡ self.now.entries }
    {
        self.entries
    }

    /// The position just after the last Round, and 0 before the first.
    pub fn start(&self) -> Pos
        ensures { result ≡ self.now.start }
    {
        self.start
    }

    /// The cores as they are, and the log of the rounds. It takes no memory.
    pub fn close(self) -> Closed
        ensures same { result ≡ record { cores = self.cores; rounds = self.rounds } }
        ensures logs { (p : Meaning) (plan : Plan) (history : List Entry) → Legal p plan history →
            AreCoresOf p plan history self → LogsOf history result }
    {
        let Cores { cores, rounds, .. } = self;
        Closed::new(cores, rounds)
    }
}

/// Each core of the plan before the first entry.
fn open_all(alloc: Global, policy: &Policy, plan: &Plan) -> Result<Vec<CoreState>, StateMemory>
    requires fits { Fits (meaning_of policy.now) plan.now }
    requires limits { IsWithinLimits plan.now }
    ensures cores { IfOk result (λ cores.
        cores.items ≡ map (core_view (meaning_of policy.now) plan.now []) (core_numbers plan.now)) }
    ensures few { IfOk result (λ cores. vec_len cores ≤ MAX_CORES) }
{
    let mut cores = Vec::with_capacity(alloc, plan.cores as usize)?;
    for core in 0..plan.cores {
        cores.push_reserved(CoreState::open(alloc, policy, plan, core)?);
    }
    Ok(cores)
}
