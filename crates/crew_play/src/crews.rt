//! The workers of a crew, side by side.

ghost use Rattle.std.specs.Prelude.{◌≡◌, ◌+◌, ◌<◌, ◌≤◌, ℕ, [], length, vec_capacity, vec_len, IsTrue};
ghost use Rattle.std.specs.Thread.{IsSync};
ghost use Rattle.core_table.specs.Public.{IsOf, plan_of, policy_of, view_of};
ghost use Rattle.core_table.specs.Told.{HasAllBack, MayBeginRound};
ghost use Rattle.parallel_play.specs.Playing.{BeganAndPlayed, HavePassed, IdleFrom, Played};
ghost use Rattle.parallel_play.specs.Stages.{table_in};
ghost use Rattle.turn_steps.specs.Shares.{first_of};
ghost use Rattle.crew_play.specs.Hands.{AllOver, AllRoomy, IsCrew, dealt};
ghost use Rattle.crew_play.specs.Room.{room_for};

use crate::dealing::{deal, gather};
use crate::hands::Hand;
use crate::playing::play_hands;
use core_table::Seat;
use parallel_play::{Stage, Tally};
use sched_io::Gate;
use std::snapshot::Snapshot;
use std::sync::Wait;
use std::thread::{Threads, join};
use turn_steps::first_core;

/// The stage of these parts. A closure that goes to another thread holds the parts: a struct of references can't go.
macro_rules! stage_of {
    ($table:ident, $policy:ident, $plan:ident, $round:ident) => {
        Stage {
            table: $table,
            policy: $policy,
            plan: $plan,
            round: $round,
        }
    };
}

/// The worker's share: its first core, the opening seat without the seats of its cores, and its hands. It has a hand at
/// least where there are no more workers than cores.
fn deal_share<G: Gate>(
    stage: &Stage<'_>,
    gate: &G,
    seat: Seat,
    hands: Vec<Hand>,
    workers: u32,
    worker: u32,
) -> (u32, Seat, Vec<Hand>)
    requires seat { IsOf (table_in stage.now) seat }
    requires workers { (1 ≤ workers) × (worker < workers) }
    requires idle { IdleFrom (first_of (plan_of (table_in stage.now)).cores workers worker) (view_of seat) }
    requires round { stage.now.round ≡ (view_of seat).round }
    requires room { (vec_len hands ≡ 0) × (room_for (plan_of (table_in stage.now)).cores workers ≤ vec_capacity hands) }
    ensures first { result.0 ≡ first_of (plan_of (table_in stage.now)).cores workers worker }
    ensures seat { IsOf (table_in stage.now) result.1 × (stage.now.round ≡ (view_of result.1).round) }
    ensures view { view_of result.1 ≡ dealt result.0 (length result.2.items) (view_of seat) }
    ensures idle { IdleFrom (first_of (plan_of (table_in stage.now)).cores workers (worker + 1)) (view_of result.1) }
    ensures crew { IsCrew (table_in stage.now) (G.passed gate.now) stage.now.round result.0 result.2.items }
    ensures len { result.0 + length result.2.items
        ≡ first_of (plan_of (table_in stage.now)).cores workers (worker + 1) }
    ensures some { workers ≤ (plan_of (table_in stage.now)).cores → 0 < length result.2.items }
    ensures capacity { vec_capacity result.2 ≡ vec_capacity hands }
{
    let cores = stage.table.cores();
    let first = first_core(cores, workers, worker);
    let end = first_core(cores, workers, worker + 1);
    let (seat, hands) = deal(stage, seat, hands, first, end);
    (first, seat, hands)
}

/// The workers from this one on play their cores, each in a thread of its own where one can be started. Each takes the
/// last list, and it comes back to its place.
fn play_crews<R: Threads + Wait + Sync, G: Gate + Sync>(
    rt: &R,
    stage: &Stage<'_>,
    gate: &G,
    workers: u32,
    worker: u32,
    seat: Seat,
    tally: Tally,
    mut lists: Vec<Vec<Hand>>,
) -> (Seat, Tally, Vec<Vec<Hand>>)
    requires seat { IsOf (table_in stage.now) seat }
    requires workers { (1 ≤ workers) × (worker + length lists.items ≡ workers) }
    requires idle { IdleFrom (first_of (plan_of (table_in stage.now)).cores workers worker) (view_of seat) }
    requires round { stage.now.round ≡ (view_of seat).round }
    requires roomy { AllRoomy (room_for (plan_of (table_in stage.now)).cores workers) lists.items }
    requires gate { (c : ℕ) → IsTrue (G.admits gate.now c stage.now.round) }
    ensures seat { IsOf (table_in stage.now) result.0 }
    ensures played { Played (first_of (plan_of (table_in stage.now)).cores workers worker) tally result.1
        (view_of seat) (view_of result.0) }
    ensures passed { HavePassed (G.passed gate.now) (plan_of (table_in stage.now))
        (first_of (plan_of (table_in stage.now)).cores workers worker) stage.now.round }
    ensures roomy { AllRoomy (room_for (plan_of (table_in stage.now)).cores workers) result.2.items }
    ensures len { length result.2.items ≡ length lists.items }
    ensures capacity { vec_capacity result.2 ≡ vec_capacity lists }
{
    let Some(hands) = lists.pop() else {
        return (seat, tally, lists);
    };
    let (before, start) = (Snapshot::of(&seat), Snapshot::of(&tally));
    let (first, left, hands) = deal_share(stage, gate, seat, hands, workers, worker);
    let (table, policy, plan, round) = (stage.table, stage.policy, stage.plan, stage.round);
    let own = || -> Vec<Hand>
        requires { IsSync R.row × IsSync G.row × (policy.now ≡ policy_of table.now)
            × (plan.now ≡ plan_of table.now) × IsCrew table.now (G.passed gate.now) round first hands.items
            × ((c : ℕ) → IsTrue (G.admits gate.now c round)) }
        ensures { IsCrew table.entry.now (G.passed gate.entry.now) round first result.items
            × AllOver result.items × (length result.items ≡ length hands.items)
            × (vec_capacity result ≡ vec_capacity hands) }
    {
        let stage = stage_of!(table, policy, plan, round);
        play_hands(rt, &stage, gate, first, hands)
    };
    let others = || -> (Seat, Tally, Vec<Vec<Hand>>)
        requires { IsSync R.row × IsSync G.row × (policy.now ≡ policy_of table.now)
            × (plan.now ≡ plan_of table.now) × IsOf table.now left × (1 ≤ workers)
            × (worker + 1 + length lists.items ≡ workers)
            × IdleFrom (first_of (plan_of table.now).cores workers (worker + 1)) (view_of left)
            × (round ≡ (view_of left).round)
            × AllRoomy (room_for (plan_of table.now).cores workers) lists.items
            × ((c : ℕ) → IsTrue (G.admits gate.now c round)) }
        ensures { IsOf table.entry.now result.0
            × Played (first_of (plan_of table.entry.now).cores workers (worker + 1)) tally result.1
            (view_of left) (view_of result.0)
            × HavePassed (G.passed gate.entry.now) (plan_of table.entry.now)
            (first_of (plan_of table.entry.now).cores workers (worker + 1)) round
            × AllRoomy (room_for (plan_of table.entry.now).cores workers) result.2.items
            × (length result.2.items ≡ length lists.items)
            × (vec_capacity result.2 ≡ vec_capacity lists) }
    {
        let stage = stage_of!(table, policy, plan, round);
        play_crews(rt, &stage, gate, workers, worker + 1, left, tally, lists)
    };
    let (hands, (rest, tally, mut lists)) = join(rt, own, others);
    let (seat, hands, tally) = gather(stage, &before, &start, rest, hands, first, tally);
    lists.push_reserved(hands);
    (seat, tally, lists)
}

/// The round begins, and the workers play all cores.
pub(crate) fn play_round<R: Threads + Wait + Sync, G: Gate + Sync>(
    rt: &R,
    stage: &Stage<'_>,
    gate: &G,
    workers: u32,
    mut seat: Seat,
    mut tally: Tally,
    lists: Vec<Vec<Hand>>,
) -> (Seat, Tally, Vec<Vec<Hand>>)
    requires seat { IsOf (table_in stage.now) seat }
    requires back { HasAllBack (view_of seat) }
    requires free { (view_of seat).held ≡ [] }
    requires may { MayBeginRound (view_of seat) stage.now.round }
    requires workers { (1 ≤ workers) × (length lists.items ≡ workers) }
    requires roomy { AllRoomy (room_for (plan_of (table_in stage.now)).cores workers) lists.items }
    requires gate { (c : ℕ) → IsTrue (G.admits gate.now c stage.now.round) }
    ensures seat { IsOf (table_in stage.now) result.0 }
    ensures played { BeganAndPlayed stage.now.round tally result.1 (view_of seat) (view_of result.0) }
    ensures passed { HavePassed (G.passed gate.now) (plan_of (table_in stage.now)) 0 stage.now.round }
    ensures roomy { AllRoomy (room_for (plan_of (table_in stage.now)).cores workers) result.2.items }
    ensures len { length result.2.items ≡ length lists.items }
{
    stage.table.draw_round(rt, &mut seat, stage.round);
    tally.count_round();
    play_crews(rt, stage, gate, workers, 0, seat, tally, lists)
}
