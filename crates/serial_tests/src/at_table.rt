//! One plan, played at the shared table by hand, in threads, and by a few workers.

ghost use Rattle.std.specs.Prelude.{◌≡◌, ◌≤◌};
ghost use Rattle.sched_base.specs.declared.limits.TheConstants.{MAX_CORES};
ghost use Rattle.policy_tree.specs.Meaning.{meaning_of};
ghost use Rattle.policy_eval.specs.Obligations.{MeetsHandlerObligations};
ghost use Rattle.round_model.specs.Fits.{Fits};
ghost use Rattle.round_model.specs.Limits.{IsWithinLimits};
ghost use Rattle.core_table.specs.Public.{Becomes, plan_of, policy_of};
ghost use Rattle.core_table.specs.Views.{first_view};
ghost use Rattle.table_players.specs.Tables.{IsFree};

use crate::count::Count;
use crate::hand_turns::play_round;
use core_table::{Seat, Table};
use crew_play::run_crew;
use history_merge::merge;
use parallel_play::run_rounds;
use policy_tree::Policy;
use round_model::{History, Plan};
use sched_io::OpenGate;
use serial_steps::round_fits;
use std::alloc::Global;
use std::sync::Wait;
use std::thread::Threads;
use table_players::game::Game;
use table_players::games::history_of;

/// The history that the cores come to which take their turns one after the other, on one thread.
pub(crate) fn by_hand<R: Wait>(
    rt: &R,
    alloc: Global,
    policy: &Policy,
    plan: &Plan,
) -> Option<History>
    requires fits { Fits (meaning_of policy.now) plan.now }
    requires limits { IsWithinLimits plan.now }
    requires handlers { MeetsHandlerObligations (meaning_of policy.now) }
{
    let Ok((table, mut seat)) = Table::open(alloc, policy, plan) else {
        return None;
    };
    play_rounds(rt, &table, policy, plan, &mut seat);
    let Ok(history) = history_of(alloc, table, seat) else {
        return None;
    };
    Some(history)
}

/// All rounds of the plan that fit its limit.
fn play_rounds<R: Wait>(rt: &R, table: &Table, policy: &Policy, plan: &Plan, seat: &mut Seat)
    requires fits { Fits (meaning_of policy.now) plan.now }
    requires limits { IsWithinLimits plan.now }
    requires opened { (policy.now ≡ policy_of table.now) × (plan.now ≡ plan_of table.now) }
    requires seat { Becomes table.now seat.old (first_view policy.now plan.now) }
    ensures { IsFree table.now seat.new }
{
    let mut count = Count::new();
    for begun in 0..plan.rounds {
        if !count.is_due(plan, begun) {
            return;
        }
        if !round_fits(plan, count.entries) {
            return;
        }
        let game = Game {
            table,
            policy,
            plan,
        };
        play_round(rt, &game, seat, begun + 1, &mut count);
    }
}

/// The history that the cores come to which run side by side, in threads.
pub(crate) fn in_threads<R: Threads + Wait + Sync>(
    rt: &R,
    alloc: Global,
    policy: &Policy,
    plan: &Plan,
) -> Option<History>
    requires fits { Fits (meaning_of policy.now) plan.now }
    requires limits { IsWithinLimits plan.now }
    requires handlers { MeetsHandlerObligations (meaning_of policy.now) }
{
    let Ok((table, seat)) = Table::open(alloc, policy, plan) else {
        return None;
    };
    let Ok(closed) = run_rounds(rt, policy, plan, table, seat, &OpenGate) else {
        return None;
    };
    let Ok(history) = merge(alloc, &closed) else {
        return None;
    };
    Some(history)
}

/// The history that the cores come to which so many workers play.
pub(crate) fn by_crew<R: Threads + Wait + Sync>(
    rt: &R,
    alloc: Global,
    policy: &Policy,
    plan: &Plan,
    workers: u32,
) -> Option<History>
    requires fits { Fits (meaning_of policy.now) plan.now }
    requires limits { IsWithinLimits plan.now }
    requires handlers { MeetsHandlerObligations (meaning_of policy.now) }
    requires workers { (1 ≤ workers) × (workers ≤ MAX_CORES) }
{
    let Ok((table, seat)) = Table::open(alloc, policy, plan) else {
        return None;
    };
    let Ok(closed) = run_crew(rt, alloc, policy, plan, table, seat, workers, &OpenGate) else {
        return None;
    };
    let Ok(history) = merge(alloc, &closed) else {
        return None;
    };
    Some(history)
}
