//! The turns of a round at the table, one after the other, on one thread.

ghost use Rattle.std.specs.Prelude.{◌≡◌, ◌<◌, []};
ghost use Rattle.core_table.specs.Public.{IsOf, plan_of, view_of};
ghost use Rattle.core_table.specs.Told.{HasAllBack, MayBeginRound};
ghost use Rattle.core_calls.specs.Turns.{HasTurned, IsFresh};
ghost use Rattle.parallel_play.specs.Playing.{BeganAndPlayed, IdleFrom, Joins, Leaves, Played, TakesBack};
ghost use Rattle.parallel_play.specs.Tallies.{CountsTurn};
ghost use Rattle.table_players.specs.Games.{table_in};
ghost use Rattle.serial_tests.specs.Counts.{tally_of};

use crate::count::Count;
use core_calls::{SeatCalls, Turned, turn};
use core_table::Seat;
use sched_base::CoreId;
use sched_io::OpenGate;
use std::sync::Wait;
use table_players::game::Game;

/// The whole turn of the core by its own seat, which comes back.
fn take_turn<R: Wait>(
    rt: &R,
    game: &Game<'_>,
    seat: Seat,
    core: CoreId,
    round: u32,
) -> (Seat, Turned)
    requires seat { IsOf (table_in game.now) seat }
    requires fresh { IsFresh (view_of seat) core }
    requires core { core < (plan_of (table_in game.now)).cores }
    requires round { round ≡ (view_of seat).round }
    ensures seat { IsOf (table_in game.now) result.0 }
    ensures turned { HasTurned core result.1 (view_of seat) (view_of result.0) }
{
    let mut calls = SeatCalls::new(game.table, seat, game.policy, game.plan, core);
    let turned = turn(rt, &mut calls, game.plan, core, round, &OpenGate);
    (calls.into_seat(), turned)
}

/// A seat for the core. The opening seat goes on without it.
fn split_off(game: &Game<'_>, seat: &mut Seat, core: CoreId) -> Seat
    requires seat { IsOf (table_in game.now) seat.old }
    requires core { core < (plan_of (table_in game.now)).cores }
    requires idle { IdleFrom core (view_of seat.old) }
    ensures left { IsOf (table_in game.now) seat.new × Leaves core (view_of seat.old) (view_of seat.new) }
    ensures right { IsOf (table_in game.now) result × IsFresh (view_of result) core }
    ensures round { (view_of result).round ≡ (view_of seat.old).round }
{
    game.table.split_for_core(seat, core)
}

/// That seat comes back, and its turn is counted.
fn take_back(game: &Game<'_>, seat: &mut Seat, own: Seat, count: &mut Count, turned: Turned)
    requires seat { IsOf (table_in game.now) seat.old }
    requires own { IsOf (table_in game.now) own }
    requires back { TakesBack (view_of seat.old) (view_of own) }
    ensures seat { IsOf (table_in game.now) seat.new }
    ensures joined { Joins (view_of seat.old) (view_of own) (view_of seat.new) }
    ensures counted { CountsTurn turned (tally_of count.old) (tally_of count.new) }
{
    game.table.join_back(seat, own);
    count.count_turn(turned);
}

/// The cores from this one on take their turns, in the order of their numbers. They are counted on the way back.
pub(crate) fn play_from<R: Wait>(
    rt: &R,
    game: &Game<'_>,
    seat: &mut Seat,
    core: CoreId,
    round: u32,
    count: &mut Count,
)
    requires seat { IsOf (table_in game.now) seat.old }
    requires idle { IdleFrom core (view_of seat.old) }
    requires round { round ≡ (view_of seat.old).round }
    ensures seat { IsOf (table_in game.now) seat.new }
    ensures played { Played core (tally_of count.old) (tally_of count.new) (view_of seat.old) (view_of seat.new) }
{
    if core >= game.table.cores() {
        return;
    }
    let own = split_off(game, seat, core);
    let (own, turned) = take_turn(rt, game, own, core, round);
    play_from(rt, game, seat, core + 1, round, count);
    take_back(game, seat, own, count, turned);
}

/// The round begins, and each core takes its turn.
pub(crate) fn play_round<R: Wait>(
    rt: &R,
    game: &Game<'_>,
    seat: &mut Seat,
    round: u32,
    count: &mut Count,
)
    requires seat { IsOf (table_in game.now) seat.old }
    requires back { HasAllBack (view_of seat.old) }
    requires free { (view_of seat.old).held ≡ [] }
    requires may { MayBeginRound (view_of seat.old) round }
    ensures seat { IsOf (table_in game.now) seat.new }
    ensures played { BeganAndPlayed round (tally_of count.old) (tally_of count.new)
        (view_of seat.old) (view_of seat.new) }
{
    game.table.draw_round(rt, seat, round);
    count.count_round();
    play_from(rt, game, seat, 0, round, count);
}
