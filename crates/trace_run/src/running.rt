//! Runs a trace's text.

ghost use Rattle.std.specs.Prelude.{◌<◌, ◌≡◌, ℕ, IfErr, IfOk, IsTrue, length};
ghost use Rattle.policy_tree.specs.Meaning.{meaning_of};
ghost use Rattle.policy_eval.specs.Obligations.{MeetsHandlerObligations};
ghost use Rattle.policy_eval.specs.Resolved.{IsResolved};
ghost use Rattle.round_model.specs.Fits.{Fits};
ghost use Rattle.round_model.specs.Limits.{IsWithinLimits};
ghost use Rattle.core_table.specs.Public.{Becomes, plan_of, policy_of};
ghost use Rattle.core_table.specs.Views.{first_view};
ghost use Rattle.crew_play.specs.Crews.{IsFaultOf};
ghost use Rattle.history_merge.specs.Merged.{CanBeWritten};
ghost use Rattle.parallel_play.specs.Runs.{RunsWhole};
ghost use Rattle.trace_play.specs.Plays.{IsShown, closed_of, played_by};
ghost use Rattle.trace_run.specs.Runs.{HasPlayers, HavePassed, HavePassedFor, IsRun, IsRunOf};
ghost use Rattle.trace_run.specs.Runs.{IsSameFault, Left};

use crate::players::Players;
use core_state::Closed;
use core_table::{Seat, Table};
use crew_play::{CrewFault, run_crew};
use parallel_play::{RunFault, run_rounds};
use policy_checker::AcceptedPolicy;
use policy_tree::Policy;
use round_model::Plan;
use sched_io::Gate;
use std::alloc::Global;
use std::sync::Wait;
use std::thread::Threads;
use trace_play::{PlanStop, PlayAnswer, PlayMemory, PlayedCores, plan_text};

/// What a run of the text under the policy comes to, by these players. Which of them played is no clause. The gate lets
/// each core pass.
///
/// # Errors
///
/// `PlayMemory::Memory` where there is no memory for the trace, the plan, the table or the lists of a crew.
pub fn run_text<R: Threads + Wait + Sync, G: Gate + Sync>(
    rt: &R,
    alloc: Global,
    policy: &AcceptedPolicy,
    players: Players,
    text: &[u8],
    gate: &G,
) -> Result<PlayAnswer, PlayMemory>
    requires text { length text.now < u32.MAX }
    requires players { HasPlayers players }
    requires gate { (c r : ℕ) → IsTrue (G.admits gate.now c r) }
    ensures run { IfOk result (IsRunOf (meaning_of policy.now) text.now) }
    ensures shown { IfOk result IsShown }
    ensures passed { IfOk result (HavePassedFor (G.passed gate.now) (meaning_of policy.now) text.now) }
{
    run_under(rt, alloc, policy.policy(), players, text, gate)
}

/// The same under a policy of which no more is known than that its handlers are right.
fn run_under<R: Threads + Wait + Sync, G: Gate + Sync>(
    rt: &R,
    alloc: Global,
    policy: &Policy,
    players: Players,
    text: &[u8],
    gate: &G,
) -> Result<PlayAnswer, PlayMemory>
    requires resolved { IsResolved (meaning_of policy.now) }
    requires handlers { MeetsHandlerObligations (meaning_of policy.now) }
    requires text { length text.now < u32.MAX }
    requires players { HasPlayers players }
    requires gate { (c r : ℕ) → IsTrue (G.admits gate.now c r) }
    ensures run { IfOk result (IsRunOf (meaning_of policy.now) text.now) }
    ensures shown { IfOk result IsShown }
    ensures passed { IfOk result (HavePassedFor (G.passed gate.now) (meaning_of policy.now) text.now) }
{
    match plan_text(alloc, policy, text) {
        Ok(plan) => {
            let left = run_plan(rt, alloc, policy, players, &plan, gate)?;
            Ok(PlayAnswer::Played(left))
        }
        Err(PlanStop::Broken(fault)) => Ok(PlayAnswer::Broken(fault)),
        Err(PlanStop::Memory) => Err(PlayMemory::Memory),
    }
}

/// What a run of the plan under the policy comes to, by these players: the cores that ran it. Which players they were
/// is no clause.
///
/// # Errors
///
/// `PlayMemory::Memory` where there is no memory for the table or the lists of a crew.
pub fn run_plan<R: Threads + Wait + Sync, G: Gate + Sync>(
    rt: &R,
    alloc: Global,
    policy: &Policy,
    players: Players,
    plan: &Plan,
    gate: &G,
) -> Result<PlayedCores, PlayMemory>
    requires fits { Fits (meaning_of policy.now) plan.now }
    requires limits { IsWithinLimits plan.now }
    requires handlers { MeetsHandlerObligations (meaning_of policy.now) }
    requires players { HasPlayers players }
    requires gate { (c r : ℕ) → IsTrue (G.admits gate.now c r) }
    ensures run { IfOk result (λ left. IsRun (meaning_of policy.now) plan.now (played_by left)) }
    ensures cores { IfOk result (λ left. length (closed_of left).cores ≡ plan.now.cores) }
    ensures shown { IfOk result (λ left. CanBeWritten (closed_of left)) }
    ensures passed { IfOk result (λ left. HavePassed (G.passed gate.now) plan.now (played_by left)) }
{
    let Ok((table, seat)) = Table::open(alloc, policy, plan) else {
        return Err(PlayMemory::Memory);
    };
    match play_rounds(rt, alloc, policy, players, plan, table, seat, gate) {
        Ok(closed) => Ok(PlayedCores::Whole(closed)),
        Err(fault) => left_by(fault),
    }
}

/// The rounds of the plan, by these players. Table and seat are as they were opened.
fn play_rounds<R: Threads + Wait + Sync, G: Gate + Sync>(
    rt: &R,
    alloc: Global,
    policy: &Policy,
    players: Players,
    plan: &Plan,
    table: Table,
    seat: Seat,
    gate: &G,
) -> Result<Closed, CrewFault>
    requires fits { Fits (meaning_of policy.now) plan.now }
    requires limits { IsWithinLimits plan.now }
    requires players { HasPlayers players }
    requires opened { (policy.now ≡ policy_of table) × (plan.now ≡ plan_of table)
        × Becomes table seat (first_view policy.now plan.now) }
    requires gate { (c r : ℕ) → IsTrue (G.admits gate.now c r) }
    ensures whole { IfOk result (RunsWhole (meaning_of policy.now) plan.now (G.passed gate.now)) }
    ensures fault { IfErr result (IsFaultOf (meaning_of policy.now) plan.now (G.passed gate.now) table seat) }
{
    match players {
        Players::ThreadEach => match run_rounds(rt, policy, plan, table, seat, gate) {
            Ok(closed) => Ok(closed),
            Err(fault) => Err(crew_fault(fault)),
        },
        Players::Crew(workers) => { run_crew(rt, alloc, policy, plan, table, seat, workers, gate) }
    }
}

/// The fault of threads, as that of a crew.
fn crew_fault(fault: RunFault) -> CrewFault
    ensures { IsSameFault fault result }
{
    let RunFault::HistoryFull(closed) = fault;
    CrewFault::HistoryFull(closed)
}

/// The cores as the rounds left them before the one that might not fit. There are none where memory was wanting.
fn left_by(fault: CrewFault) -> Result<PlayedCores, PlayMemory>
    ensures { IfOk result (Left fault) }
{
    match fault {
        CrewFault::HistoryFull(closed) => Ok(PlayedCores::Full(closed)),
        CrewFault::Memory(_table, _seat) => Err(PlayMemory::Memory),
    }
}
