//! All rounds of a plan, by a crew.

ghost use Rattle.std.specs.Prelude.{◌≡◌, ◌≤◌, ℕ, length, IfErr, IfOk, IsTrue};
ghost use Rattle.sched_base.specs.declared.limits.TheConstants.{MAX_WORKERS};
ghost use Rattle.policy_tree.specs.Meaning.{meaning_of};
ghost use Rattle.round_model.specs.Fits.{Fits};
ghost use Rattle.round_model.specs.Limits.{IsWithinLimits};
ghost use Rattle.core_table.specs.Public.{Becomes, plan_of, policy_of};
ghost use Rattle.core_table.specs.Views.{first_view};
ghost use Rattle.parallel_play.specs.Runs.{RunsFull, RunsWhole};
ghost use Rattle.crew_play.specs.Crews.{IsFaultOf};
ghost use Rattle.crew_play.specs.Hands.{AllRoomy};
ghost use Rattle.crew_play.specs.Room.{room_for};

use crate::crews::play_round;
use crate::fault::CrewFault;
use crate::hand_lists::make_lists;
use crate::hands::Hand;
use core_state::Closed;
use core_table::{Seat, Table};
use parallel_play::{Stage, Tally};
use policy_tree::Policy;
use round_model::Plan;
use sched_io::Gate;
use serial_steps::round_fits;
use std::alloc::Global;
use std::sync::Wait;
use std::thread::Threads;

/// Plays the plan under the policy by so many workers, or one for each core where there are fewer, as far as the plan's
/// limit lets it come. How many there were is no clause. Table and seat are as they were opened with these two.
///
/// # Errors
///
/// `CrewFault::HistoryFull` as in `run_rounds`. `CrewFault::Memory` where there isn't enough for the workers' lists,
/// which are made before the first entry: table and seat come back as they were.
pub fn run_crew<R: Threads + Wait + Sync, G: Gate + Sync>(
    rt: &R,
    alloc: Global,
    policy: &Policy,
    plan: &Plan,
    table: Table,
    seat: Seat,
    workers: u32,
    gate: &G,
) -> Result<Closed, CrewFault>
    requires fits { Fits (meaning_of policy.now) plan.now }
    requires limits { IsWithinLimits plan.now }
    requires opened { (policy.now ≡ policy_of table) × (plan.now ≡ plan_of table)
        × Becomes table seat (first_view policy.now plan.now) }
    requires workers { (1 ≤ workers) × (workers ≤ MAX_WORKERS) }
    requires gate { (c r : ℕ) → IsTrue (G.admits gate.now c r) }
    ensures whole { IfOk result (RunsWhole (meaning_of policy.now) plan.now (G.passed gate.now)) }
    ensures fault { IfErr result (IsFaultOf (meaning_of policy.now) plan.now (G.passed gate.now) table seat) }
{
    let workers = workers.min(plan.cores);
    let Ok(lists) = make_lists(alloc, workers, plan.cores) else {
        return Err(CrewFault::Memory(table, seat));
    };
    match run_under(rt, policy, plan, table, seat, workers, lists, gate) {
        Ok(closed) => Ok(closed),
        Err(closed) => Err(CrewFault::HistoryFull(closed)),
    }
}

/// The same with a list for each worker. An error has the cores as the
/// complete rounds left them where the next might not fit the limit.
fn run_under<R: Threads + Wait + Sync, G: Gate + Sync>(
    rt: &R,
    policy: &Policy,
    plan: &Plan,
    table: Table,
    mut seat: Seat,
    workers: u32,
    mut lists: Vec<Vec<Hand>>,
    gate: &G,
) -> Result<Closed, Closed>
    requires fits { Fits (meaning_of policy.now) plan.now }
    requires limits { IsWithinLimits plan.now }
    requires opened { (policy.now ≡ policy_of table) × (plan.now ≡ plan_of table) }
    requires seat { Becomes table seat (first_view policy.now plan.now) }
    requires workers { (1 ≤ workers) × (length lists.items ≡ workers) }
    requires roomy { AllRoomy (room_for plan.now.cores workers) lists.items }
    requires gate { (c r : ℕ) → IsTrue (G.admits gate.now c r) }
    ensures whole { IfOk result (RunsWhole (meaning_of policy.now) plan.now (G.passed gate.now)) }
    ensures full { IfErr result (RunsFull (meaning_of policy.now) plan.now (G.passed gate.now)) }
{
    let mut tally = Tally::new();
    for begun in 0..plan.rounds {
        if !tally.is_due(plan, begun) {
            return Ok(table.close(seat));
        }
        if !round_fits(plan, tally.entries) {
            return Err(table.close(seat));
        }
        let stage = Stage {
            table: &table,
            policy,
            plan,
            round: begun + 1,
        };
        (seat, tally, lists) = play_round(rt, &stage, gate, workers, seat, tally, lists);
    }
    Ok(table.close(seat))
}
