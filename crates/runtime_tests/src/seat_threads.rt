//! Cores that take their turns at one table in threads of their own.

ghost use Rattle.std.specs.Prelude.{◌≡◌};
ghost use Rattle.std.specs.Thread.{IsSync};
ghost use Rattle.policy_tree.specs.Meaning.{meaning_of};
ghost use Rattle.core_table.specs.Public.{plan_of, policy_of};
ghost use Rattle.table_players.specs.declared.players.Stage.TheVariants as stage_of;
ghost use Rattle.table_players.specs.Crowds.{IsCrowd, IsTried};
ghost use Rattle.table_players.specs.Games.{IsAt, IsDealing, IsTable, Plays, table_in};
ghost use Rattle.table_players.specs.Tables.{IsFree};

use crate::dice::rolled;
use crate::finding::{Finding, all_hold};
use crate::rounds::is_whole_and_legal;
use crate::spreads::steals_narrow;
use core_table::{Seat, Table};
use policy_tree::Policy;
use round_model::{History, Plan};
use sched_base::CoreId;
use std::alloc::Global;
use std::sync::Wait;
use std::thread::{Threads, join};
use table_players::crowds::{crowd, placed_by_load, placed_here, stolen_in_batches};
use table_players::game::Game;
use table_players::games::{history_of, opened};
use table_players::players::{Player, Stage};

/// The player's seat once it has taken its whole turn, at the table that was opened with these.
fn turned<R: Wait>(rt: &R, table: &Table, policy: &Policy, plan: &Plan, player: Player) -> Seat
    requires opening { (policy.now ≡ policy_of table.now) × (plan.now ≡ plan_of table.now) }
    requires player { Plays table.now player.core player }
    ensures { IsAt table.now result player.core stage_of.Over }
{
    let Player { seat, .. } = Game::new(table, policy, plan).turn(rt, player);
    seat
}

/// The seats of two players once they have taken their whole turns, each in a thread of its own.
fn two_turned<R: Threads + Wait + Sync>(
    rt: &R,
    table: &Table,
    policy: &Policy,
    plan: &Plan,
    first: Player,
    second: Player,
) -> (Seat, Seat)
    requires opening { (policy.now ≡ policy_of table.now) × (plan.now ≡ plan_of table.now) }
    requires first { Plays table.now first.core first }
    requires second { Plays table.now second.core second }
    ensures first { IsAt table.now result.0 first.core stage_of.Over }
    ensures second { IsAt table.now result.1 second.core stage_of.Over }
{
    join(
        rt,
        || -> Seat
            requires { IsSync R.row × (policy.now ≡ policy_of table.now) × (plan.now ≡ plan_of table.now)
                × Plays table.now first.core first }
            ensures { IsAt table.entry.now result first.core stage_of.Over }
        { turned(rt, table, policy, plan, first) },
        || -> Seat
            requires { IsSync R.row × (policy.now ≡ policy_of table.now) × (plan.now ≡ plan_of table.now)
                × Plays table.now second.core second }
            ensures { IsAt table.entry.now result second.core stage_of.Over }
        { turned(rt, table, policy, plan, second) },
    )
}

/// The seats of four players once they have taken their whole turns, each in a thread of its own.
fn four_turned<R: Threads + Wait + Sync>(
    rt: &R,
    table: &Table,
    policy: &Policy,
    plan: &Plan,
    low: (Player, Player),
    high: (Player, Player),
) -> ((Seat, Seat), (Seat, Seat))
    requires opening { (policy.now ≡ policy_of table.now) × (plan.now ≡ plan_of table.now) }
    requires low { Plays table.now low.0.core low.0 × Plays table.now low.1.core low.1 }
    requires high { Plays table.now high.0.core high.0 × Plays table.now high.1.core high.1 }
    ensures low { IsAt table.now result.0.0 low.0.core stage_of.Over
        × IsAt table.now result.0.1 low.1.core stage_of.Over }
    ensures high { IsAt table.now result.1.0 high.0.core stage_of.Over
        × IsAt table.now result.1.1 high.1.core stage_of.Over }
{
    join(
        rt,
        || -> (Seat, Seat)
            requires { IsSync R.row × (policy.now ≡ policy_of table.now) × (plan.now ≡ plan_of table.now)
                × Plays table.now low.0.core low.0 × Plays table.now low.1.core low.1 }
            ensures { IsAt table.entry.now result.0 low.0.core stage_of.Over
                × IsAt table.entry.now result.1 low.1.core stage_of.Over }
        { two_turned(rt, table, policy, plan, low.0, low.1) },
        || -> (Seat, Seat)
            requires { IsSync R.row × (policy.now ≡ policy_of table.now) × (plan.now ≡ plan_of table.now)
                × Plays table.now high.0.core high.0 × Plays table.now high.1.core high.1 }
            ensures { IsAt table.entry.now result.0 high.0.core stage_of.Over
                × IsAt table.entry.now result.1 high.1.core stage_of.Over }
        { two_turned(rt, table, policy, plan, high.0, high.1) },
    )
}

/// A player whose turn is over.
fn over(core: CoreId, seat: Seat) -> Player
    ensures core { result.core ≡ core }
    ensures seat { result.seat ≡ seat }
    ensures stage { result.stage ≡ stage_of.Over }
{
    Player {
        core,
        seat,
        stage: Stage::Over,
    }
}

/// Core 0 takes its whole turn first, and then the other two take theirs in threads.
fn play_three<R: Threads + Wait + Sync>(rt: &R, game: &Game<'_>, seat: &mut Seat)
    requires table { IsTable (table_in game.now) }
    requires three { (plan_of (table_in game.now)).cores ≡ 3 }
    requires seat { IsDealing (table_in game.now) seat.old 0 }
    ensures { IsFree (table_in game.now) seat.new }
{
    let first = game.deal(seat, 0);
    let second = game.deal(seat, 1);
    let third = game.deal(seat, 2);
    let first = game.turn(rt, first);
    let (second, third) = two_turned(rt, game.table, game.policy, game.plan, second, third);
    game.take_back(seat, over(2, third));
    game.take_back(seat, over(1, second));
    game.take_back(seat, first);
}

/// Four cores take their turns in threads.
fn play_four<R: Threads + Wait + Sync>(rt: &R, game: &Game<'_>, seat: &mut Seat)
    requires table { IsTable (table_in game.now) }
    requires four { (plan_of (table_in game.now)).cores ≡ 4 }
    requires seat { IsDealing (table_in game.now) seat.old 0 }
    ensures { IsFree (table_in game.now) seat.new }
{
    let first = game.deal(seat, 0);
    let second = game.deal(seat, 1);
    let third = game.deal(seat, 2);
    let fourth = game.deal(seat, 3);
    let (low, high) = four_turned(
        rt,
        game.table,
        game.policy,
        game.plan,
        (first, second),
        (third, fourth),
    );
    game.take_back(seat, over(3, high.1));
    game.take_back(seat, over(2, high.0));
    game.take_back(seat, over(1, low.1));
    game.take_back(seat, over(0, low.0));
}

/// The history of one round of three cores, two of which take their turns in threads.
fn played_apart<R: Threads + Wait + Sync>(
    rt: &R,
    alloc: Global,
    policy: &Policy,
    plan: &Plan,
) -> Option<History>
    requires policy { IsTried (meaning_of policy.now) }
    requires plan { IsCrowd plan.now }
    requires three { plan.now.cores ≡ 3 }
{
    let Ok((table, mut seat)) = opened(alloc, policy, plan) else {
        return None;
    };
    let game = Game::new(&table, policy, plan);
    game.begin(rt, &mut seat);
    play_three(rt, &game, &mut seat);
    history_of(alloc, table, seat).ok()
}

/// The history of one round of four cores, which take their turns in threads.
fn played_by_four<R: Threads + Wait + Sync>(
    rt: &R,
    alloc: Global,
    policy: &Policy,
    plan: &Plan,
) -> Option<History>
    requires policy { IsTried (meaning_of policy.now) }
    requires plan { IsCrowd plan.now }
    requires four { plan.now.cores ≡ 4 }
{
    let Ok((table, mut seat)) = opened(alloc, policy, plan) else {
        return None;
    };
    let game = Game::new(&table, policy, plan);
    game.begin(rt, &mut seat);
    play_four(rt, &game, &mut seat);
    history_of(alloc, table, seat).ok()
}

/// Whether the round of four threads, with a plan by the dice, is whole and legal, and its steals narrow the spread.
fn is_well_played<R: Threads + Wait + Sync>(
    rt: &R,
    alloc: Global,
    policy: &Policy,
    dice: u64,
) -> Option<bool>
    requires { IsTried (meaning_of policy.now) }
{
    let count = (dice >> 60) as u32 / 2 + 1;
    let Ok(plan) = crowd(alloc, 4, count, dice >> 20) else {
        return None;
    };
    let history = played_by_four(rt, alloc, policy, &plan)?;
    let whole = is_whole_and_legal(alloc, policy, &plan, &history, 9 + count)?;
    Some(whole && steals_narrow(&history))
}

/// Two of three cores in threads.
pub(crate) fn two_cores<R: Threads + Wait + Sync>(rt: &R, alloc: Global) -> Option<Finding> {
    let Ok(policy) = placed_here(alloc) else {
        return None;
    };
    let Ok(plan) = crowd(alloc, 3, 2, 0) else {
        return None;
    };
    let history = played_apart(rt, alloc, &policy, &plan)?;
    let well_played = is_whole_and_legal(alloc, &policy, &plan, &history, 9)?;
    Some(all_hold(&[("the round is whole and legal", well_played)]))
}

/// Four cores in threads, many times, under each policy.
pub(crate) fn four_cores<R: Threads + Wait + Sync>(rt: &R, alloc: Global) -> Option<Finding> {
    let Ok(here) = placed_here(alloc) else {
        return None;
    };
    let Ok(by_load) = placed_by_load(alloc) else {
        return None;
    };
    let Ok(in_batches) = stolen_in_batches(alloc) else {
        return None;
    };
    let placed = all_times(rt, alloc, &here)?.and(all_times(rt, alloc, &by_load)?);
    Some(placed.and(all_times(rt, alloc, &in_batches)?))
}

/// So often four cores play under each policy.
const TIMES: u32 = 100;

/// What the first round finds that isn't well played.
fn all_times<R: Threads + Wait + Sync>(rt: &R, alloc: Global, policy: &Policy) -> Option<Finding>
    requires { IsTried (meaning_of policy.now) }
{
    let mut dice = 2026;
    for turn in 0..TIMES {
        dice = rolled(dice);
        if !is_well_played(rt, alloc, policy, dice)? {
            return Some(Finding::NotIn(
                "the round is whole and legal, and its steals narrow the spread",
                turn,
            ));
        }
    }
    Some(Finding::Expected)
}
