//! The turns of a round, side by side.

ghost use Rattle.std.specs.Prelude.{◌≡◌, ◌+◌, ◌<◌, ℕ, [], IsTrue};
ghost use Rattle.std.specs.Thread.{IsSync};
ghost use Rattle.core_table.specs.Public.{IsOf, plan_of, policy_of, view_of};
ghost use Rattle.core_table.specs.Told.{HasAllBack, MayBeginRound};
ghost use Rattle.core_calls.specs.Turns.{HasTurned, IsFresh};
ghost use Rattle.parallel_play.specs.Playing.{BeganAndPlayed, HavePassed, IdleFrom, Joins, Leaves, Played, TakesBack};
ghost use Rattle.parallel_play.specs.Stages.{table_in};
ghost use Rattle.parallel_play.specs.Tallies.{CountsTurn};

use crate::stage::Stage;
use crate::sums::Tally;
use core_calls::{SeatCalls, Turned, turn};
use core_table::Seat;
use sched_base::CoreId;
use sched_io::Gate;
use std::sync::Wait;
use std::thread::{Threads, join};

/// The turn of the core by its own seat, which is handed over and comes back.
fn take_turn<R: Wait, G: Gate + Sync>(
    rt: &R,
    stage: &Stage<'_>,
    gate: &G,
    seat: Seat,
    core: CoreId,
) -> (Seat, Turned)
    requires seat { IsOf (table_in stage.now) seat }
    requires fresh { IsFresh (view_of seat) core }
    requires core { core < (plan_of (table_in stage.now)).cores }
    requires round { stage.now.round ≡ (view_of seat).round }
    requires gate { IsTrue (G.admits gate.now core stage.now.round) }
    ensures seat { IsOf (table_in stage.now) result.0 }
    ensures turned { HasTurned core result.1 (view_of seat) (view_of result.0) }
    ensures passed { G.passed gate.now core stage.now.round }
{
    let mut calls = SeatCalls::new(stage.table, seat, stage.policy, stage.plan, core);
    let turned = turn(rt, &mut calls, stage.plan, core, stage.round, gate);
    (calls.into_seat(), turned)
}

/// A seat for the core, and the opening seat without it.
pub fn split_off(stage: &Stage<'_>, mut seat: Seat, core: CoreId) -> (Seat, Seat)
    requires seat { IsOf (table_in stage.now) seat }
    requires core { core < (plan_of (table_in stage.now)).cores }
    requires idle { IdleFrom core (view_of seat) }
    ensures left { IsOf (table_in stage.now) result.0 × Leaves core (view_of seat) (view_of result.0) }
    ensures right { IsOf (table_in stage.now) result.1 × IsFresh (view_of result.1) core }
    ensures round { (view_of result.1).round ≡ (view_of seat).round }
{
    let own = stage.table.split_for_core(&mut seat, core);
    (seat, own)
}

/// The opening seat once that of a core is back, and what is then counted.
pub fn take_back(
    stage: &Stage<'_>,
    mut seat: Seat,
    own: Seat,
    mut tally: Tally,
    turned: Turned,
) -> (Seat, Tally)
    requires seat { IsOf (table_in stage.now) seat }
    requires own { IsOf (table_in stage.now) own }
    requires back { TakesBack (view_of seat) (view_of own) }
    ensures seat { IsOf (table_in stage.now) result.0 }
    ensures joined { Joins (view_of seat) (view_of own) (view_of result.0) }
    ensures counted { CountsTurn turned tally result.1 }
{
    stage.table.join_back(&mut seat, own);
    tally.count_turn(turned);
    (seat, tally)
}

/// The cores from this one on take their turns, each in a thread of its own where one can be started. What they come to
/// is counted on the way back.
pub(crate) fn play_from<R: Threads + Wait + Sync, G: Gate + Sync>(
    rt: &R,
    stage: &Stage<'_>,
    gate: &G,
    seat: Seat,
    core: CoreId,
    tally: Tally,
) -> (Seat, Tally)
    requires seat { IsOf (table_in stage.now) seat }
    requires idle { IdleFrom core (view_of seat) }
    requires round { stage.now.round ≡ (view_of seat).round }
    requires gate { (c : ℕ) → IsTrue (G.admits gate.now c stage.now.round) }
    ensures seat { IsOf (table_in stage.now) result.0 }
    ensures played { Played core tally result.1 (view_of seat) (view_of result.0) }
    ensures passed { HavePassed (G.passed gate.now) (plan_of (table_in stage.now)) core stage.now.round }
{
    if core >= stage.table.cores() {
        return (seat, tally);
    }
    let (left, own) = split_off(stage, seat, core);
    // The closures have the parts of the stage: a struct of references can't go to another thread.
    let Stage {
        table,
        policy,
        plan,
        round,
    } = *stage;
    let next = core + 1;
    let ((own, turned), (rest, counted)) = join(
        rt,
        || -> (Seat, Turned)
            requires { IsSync R.row × IsSync G.row × IsOf table.now own × IsFresh (view_of own) core
                × (core < (plan_of table.now).cores) × (policy.now ≡ policy_of table.now)
                × (plan.now ≡ plan_of table.now) × (round ≡ (view_of own).round)
                × ((c : ℕ) → IsTrue (G.admits gate.now c round)) }
            ensures { IsOf table.entry.now result.0 × HasTurned core result.1 (view_of own) (view_of result.0)
                × G.passed gate.entry.now core round }
        {
            take_turn(
                rt,
                &Stage {
                    table,
                    policy,
                    plan,
                    round,
                },
                gate,
                own,
                core,
            )
        },
        || -> (Seat, Tally)
            requires { IsSync R.row × IsSync G.row × IsOf table.now left × IdleFrom next (view_of left)
                × (policy.now ≡ policy_of table.now)
                × (plan.now ≡ plan_of table.now) × (round ≡ (view_of left).round)
                × ((c : ℕ) → IsTrue (G.admits gate.now c round)) }
            ensures { IsOf table.entry.now result.0
                × Played next tally result.1 (view_of left) (view_of result.0)
                × HavePassed (G.passed gate.entry.now) (plan_of table.entry.now) next round }
        {
            play_from(
                rt,
                &Stage {
                    table,
                    policy,
                    plan,
                    round,
                },
                gate,
                left,
                next,
                tally,
            )
        },
    );
    take_back(stage, rest, own, counted, turned)
}

/// The round begins, and each core takes its turn.
pub(crate) fn play_round<R: Threads + Wait + Sync, G: Gate + Sync>(
    rt: &R,
    stage: &Stage<'_>,
    gate: &G,
    mut seat: Seat,
    mut tally: Tally,
) -> (Seat, Tally)
    requires seat { IsOf (table_in stage.now) seat }
    requires back { HasAllBack (view_of seat) }
    requires free { (view_of seat).held ≡ [] }
    requires may { MayBeginRound (view_of seat) stage.now.round }
    requires gate { (c : ℕ) → IsTrue (G.admits gate.now c stage.now.round) }
    ensures seat { IsOf (table_in stage.now) result.0 }
    ensures played { BeganAndPlayed stage.now.round tally result.1 (view_of seat) (view_of result.0) }
    ensures passed { HavePassed (G.passed gate.now) (plan_of (table_in stage.now)) 0 stage.now.round }
{
    stage.table.draw_round(rt, &mut seat, stage.round);
    tally.count_round();
    play_from(rt, stage, gate, seat, 0, tally)
}
