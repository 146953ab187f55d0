//! Turns by the calls of a core in memory, whole and step by step: under a policy without placement, one with it and
//! one with a batch. The files `NAME.trace` and `NAME.history` have the plan, and the history that its turns come to.

ghost use Rattle.std.specs.Prelude.{◌≡◌, ◌≤◌, ◌⊎◌, ℕ, IsTrue, length};
ghost use Rattle.sched_base.specs.declared.limits.TheConstants.{MAX_ENTRIES};
ghost use Rattle.policy_tree.specs.Meaning.{meaning_of};
ghost use Rattle.policy_eval.specs.Obligations.{MeetsHandlerObligations};
ghost use Rattle.round_model.specs.Fits.{Fits};
ghost use Rattle.round_model.specs.Limits.{IsWithinLimits};
ghost use Rattle.fair_policy.specs.Fair.{fair_meaning};
ghost use Rattle.model_tests.specs.Policies.{basic, in_batches};
ghost use Rattle.turn_tests.specs.Memory.{IsKept, IsSameMemory};

use crate::finding::{Finding, all_hold, told};
use crate::memory_calls::MemoryCalls;
use crate::playing::{Way, play_all};
use crate::texts::{is_spelled, plan_of_text};
use crate::turnstile::Turnstile;
use core_calls::Turned;
use fair_policy::fair_policy;
use model_tests::builders::{basic_policy, batched_policy};
use model_tests::steps::legal_length;
use policy_tree::Policy;
use round_model::{Entry, Plan};
use sched_io::Gate;
use std::alloc::Global;
use std::rt::Files;
use std::sync::Wait;
use std::{fs, io};

/// What turns come to: the history as a text, and what each of them tells, in the order in which they are taken.
#[derive(Clone, Copy)]
struct Wanted<'a> {
    history: &'a str,
    turned: [Option<Turned>; 4],
}

/// What the turns under the basic policy tell. Thread 3 ends.
const UNDER_BASIC: [Option<Turned>; 4] = [
    Some(Turned {
        entries: 5,
        ended: None,
    }),
    Some(Turned {
        entries: 2,
        ended: None,
    }),
    Some(Turned {
        entries: 3,
        ended: Some(3),
    }),
    Some(Turned {
        entries: 3,
        ended: None,
    }),
];

/// What those under the fair policy tell. Thread 1 ends.
const UNDER_FAIR: [Option<Turned>; 4] = [
    Some(Turned {
        entries: 4,
        ended: None,
    }),
    Some(Turned {
        entries: 2,
        ended: None,
    }),
    Some(Turned {
        entries: 3,
        ended: Some(1),
    }),
    Some(Turned {
        entries: 2,
        ended: None,
    }),
];

/// What those under the batched policy tell.
const IN_BATCHES: [Option<Turned>; 4] = [
    Some(Turned {
        entries: 8,
        ended: None,
    }),
    Some(Turned {
        entries: 2,
        ended: None,
    }),
    Some(Turned {
        entries: 2,
        ended: None,
    }),
    Some(Turned {
        entries: 2,
        ended: None,
    }),
];

/// A thread blocks and wakes, one is stolen, one ends, and one enters by the second core.
pub(crate) fn under_basic<R: Files + Print + Alloc + Wait>(
    rt: &R,
    alloc: Global,
) -> io::Result<()> {
    let trace = fs::read_to_string(rt, "basic.trace")?;
    let history = fs::read_to_string(rt, "basic.history")?;
    let wanted = Wanted {
        history: history.as_str(),
        turned: UNDER_BASIC,
    };
    told(
        rt,
        "turns under basic",
        by_basic(rt, alloc, trace.as_str(), &wanted, Way::Whole),
    )?;
    told(
        rt,
        "steps under basic",
        by_basic(rt, alloc, trace.as_str(), &wanted, Way::ByStep),
    )
}

/// A thread is placed on the second core, and another blocks, wakes by the least load, and ends.
pub(crate) fn under_fair<R: Files + Print + Alloc + Wait>(rt: &R, alloc: Global) -> io::Result<()> {
    let trace = fs::read_to_string(rt, "fair.trace")?;
    let history = fs::read_to_string(rt, "fair.history")?;
    let wanted = Wanted {
        history: history.as_str(),
        turned: UNDER_FAIR,
    };
    told(
        rt,
        "turns under fair",
        by_fair(rt, alloc, trace.as_str(), &wanted, Way::Whole),
    )?;
    told(
        rt,
        "steps under fair",
        by_fair(rt, alloc, trace.as_str(), &wanted, Way::ByStep),
    )
}

/// Three of six threads are stolen at once.
pub(crate) fn in_batches<R: Files + Print + Alloc + Wait>(rt: &R, alloc: Global) -> io::Result<()> {
    let trace = fs::read_to_string(rt, "batch.trace")?;
    let history = fs::read_to_string(rt, "batch.history")?;
    let wanted = Wanted {
        history: history.as_str(),
        turned: IN_BATCHES,
    };
    told(
        rt,
        "turns with a batch",
        by_batches(rt, alloc, trace.as_str(), &wanted, Way::Whole),
    )?;
    told(
        rt,
        "steps with a batch",
        by_batches(rt, alloc, trace.as_str(), &wanted, Way::ByStep),
    )
}

/// What is found of the trace under the basic policy.
fn by_basic<R: Wait>(
    rt: &R,
    alloc: Global,
    trace: &str,
    wanted: &Wanted<'_>,
    way: Way,
) -> Option<Finding> {
    let Ok(policy) = basic_policy(alloc) else {
        return None;
    };
    come_to(rt, alloc, &policy, trace, wanted, way)
}

/// What is found of the trace under the fair policy.
fn by_fair<R: Wait>(
    rt: &R,
    alloc: Global,
    trace: &str,
    wanted: &Wanted<'_>,
    way: Way,
) -> Option<Finding> {
    let Ok(policy) = fair_policy(alloc) else {
        return None;
    };
    come_to(rt, alloc, &policy, trace, wanted, way)
}

/// What is found of the trace under the basic policy with a batch.
fn by_batches<R: Wait>(
    rt: &R,
    alloc: Global,
    trace: &str,
    wanted: &Wanted<'_>,
    way: Way,
) -> Option<Finding> {
    let Ok(policy) = batched_policy(alloc, 8) else {
        return None;
    };
    come_to(rt, alloc, &policy, trace, wanted, way)
}

/// What is found of the trace under that policy.
fn come_to<R: Wait>(
    rt: &R,
    alloc: Global,
    policy: &Policy,
    trace: &str,
    wanted: &Wanted<'_>,
    way: Way,
) -> Option<Finding>
    requires { (meaning_of policy.now ≡ basic) ⊎ ((meaning_of policy.now ≡ fair_meaning)
        ⊎ (meaning_of policy.now ≡ in_batches 8)) }
{
    let plan = plan_of_text(alloc, policy, trace)?;
    plan_comes_to(rt, alloc, policy, &plan, wanted, way)
}

/// Whether the turns of both cores in both rounds come to this, and each of them passes the gate once.
fn plan_comes_to<R: Wait>(
    rt: &R,
    alloc: Global,
    policy: &Policy,
    plan: &Plan,
    wanted: &Wanted<'_>,
    way: Way,
) -> Option<Finding>
    requires fits { Fits (meaning_of policy.now) plan.now }
    requires limits { IsWithinLimits plan.now }
    requires handlers { MeetsHandlerObligations (meaning_of policy.now) }
{
    let gate = Turnstile::new();
    let Ok(mut calls) = MemoryCalls::open(alloc, policy, plan) else {
        return None;
    };
    let told = have_told(rt, alloc, &mut calls, &gate, &wanted.turned, way);
    let history = calls.into_history();
    let entries = history.as_slice();
    Some(all_hold(&[
        ("each turn tells this", told),
        (
            "the history is the one of the file",
            is_spelled(alloc, policy, plan, entries, wanted.history),
        ),
        (
            "the model finds the history legal",
            is_legal(alloc, policy, plan, entries),
        ),
        ("each turn passes the gate once", gate.passed() == 1212),
    ]))
}

/// Whether there was memory for all turns, and they told this.
fn have_told<R: Wait, G: Gate>(
    rt: &R,
    alloc: Global,
    calls: &mut MemoryCalls<'_>,
    gate: &G,
    turned: &[Option<Turned>],
    way: Way,
) -> bool
    requires kept { IsKept calls.old }
    requires gate { (core round : ℕ) → IsTrue (G.admits gate.now core round) }
    ensures kept { IsKept calls.new }
    ensures same { IsSameMemory calls.old calls.new }
{
    match play_all(rt, alloc, calls, gate, way) {
        Ok(told) => told.as_slice() == turned,
        Err(_fault) => false,
    }
}

/// Whether there was memory to judge the entries, and each of them is legal behind those before it.
fn is_legal(alloc: Global, policy: &Policy, plan: &Plan, entries: &[Entry]) -> bool
    requires fits { Fits (meaning_of policy.now) plan.now }
    requires limits { IsWithinLimits plan.now }
    requires handlers { MeetsHandlerObligations (meaning_of policy.now) }
    requires few { length entries.now ≤ MAX_ENTRIES }
{
    match legal_length(alloc, policy, plan, entries) {
        Ok(legal) => legal as usize == entries.len(),
        Err(_fault) => false,
    }
}
