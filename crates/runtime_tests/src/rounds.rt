//! Rounds at a table, in which the cores take their steps in some order, on one thread.

ghost use Rattle.std.specs.Prelude.{IfSome};
ghost use Rattle.policy_tree.specs.Meaning.{meaning_of};
ghost use Rattle.table_players.specs.Crowds.{IsCrowd, IsTried};
ghost use Rattle.table_players.specs.Games.{IsDealing, IsTable, PlayAll, table_in};
ghost use Rattle.table_players.specs.Tables.{IsFree};

use crate::dice::rolled;
use core_table::Seat;
use policy_tree::Policy;
use round_model::{History, Plan};
use std::alloc::Global;
use std::sync::Wait;
use table_players::game::Game;
use table_players::games::{history_of, is_legal, opened};
use table_players::players::Player;

/// In which order the cores take their steps.
#[derive(Clone, Copy)]
pub(crate) enum Steps<'a> {
    /// Each step is that core's.
    Of(&'a [usize]),
    /// By the dice, until all turns are over.
    ByDice(u64),
}

/// The player of that place takes its next step, if there is one.
fn step_at<R: Wait>(rt: &R, game: &Game<'_>, players: &mut [Player], at: usize)
    requires { PlayAll (table_in game.now) players.old }
    ensures { PlayAll (table_in game.now) players.new }
{
    if at < players.len() {
        let player = &mut players[at];
        game.step(rt, player);
    }
}

/// The players take steps in that order.
fn take_in_order<R: Wait>(rt: &R, game: &Game<'_>, players: &mut [Player], order: &[usize])
    requires { PlayAll (table_in game.now) players.old }
    ensures { PlayAll (table_in game.now) players.new }
{
    for at in order {
        step_at(rt, game, players, *at);
    }
}

/// Whether every player's turn is over.
fn are_over(players: &[Player]) -> bool {
    for player in players {
        if !player.is_over() {
            return false;
        }
    }
    true
}

/// The place of the first player from that one on, and before the other, whose turn isn't over.
fn unfinished(players: &[Player], from: usize, to: usize) -> Option<usize> {
    for at in from..to.min(players.len()) {
        if !players[at].is_over() {
            return Some(at);
        }
    }
    None
}

/// The place of a player whose turn isn't over, by the dice. Where there is none, this is of no account.
fn picked(players: &[Player], dice: u64) -> usize {
    let count = players.len();
    if count == 0 {
        return 0;
    }
    let first = (dice >> 33) as usize % count;
    match unfinished(players, first, count) {
        Some(at) => at,
        None => unfinished(players, 0, first).unwrap_or(0),
    }
}

/// The players take steps in an order by the dice, until all turns are over.
fn roll<R: Wait>(rt: &R, game: &Game<'_>, players: &mut [Player], dice: u64)
    requires { PlayAll (table_in game.now) players.old }
    ensures { PlayAll (table_in game.now) players.new }
{
    let mut dice = dice;
    for _ in rt.forever() {
        if are_over(players) {
            return;
        }
        dice = rolled(dice);
        step_at(rt, game, players, picked(players, dice));
    }
}

/// The players take their steps.
fn take<R: Wait>(rt: &R, game: &Game<'_>, players: &mut [Player], steps: Steps<'_>)
    requires { PlayAll (table_in game.now) players.old }
    ensures { PlayAll (table_in game.now) players.new }
{
    match steps {
        Steps::Of(order) => take_in_order(rt, game, players, order),
        Steps::ByDice(dice) => roll(rt, game, players, dice),
    }
}

/// The cores get their seats, take their steps, and give their seats back. `None` says that memory ran out.
fn deal_and_take<R: Wait>(
    rt: &R,
    alloc: Global,
    game: &Game<'_>,
    seat: &mut Seat,
    steps: Steps<'_>,
) -> Option<()>
    requires table { IsTable (table_in game.now) }
    requires seat { IsDealing (table_in game.now) seat.old 0 }
    ensures { IfSome result (λ _. IsFree (table_in game.now) seat.new) }
{
    let Ok(mut players) = game.deal_all(alloc, seat) else {
        return None;
    };
    take(rt, game, &mut players, steps);
    game.take_all_back(seat, players);
    Some(())
}

/// The history of one round, in which the cores take these steps.
pub(crate) fn played<R: Wait>(
    rt: &R,
    alloc: Global,
    policy: &Policy,
    plan: &Plan,
    steps: Steps<'_>,
) -> Option<History>
    requires policy { IsTried (meaning_of policy.now) }
    requires plan { IsCrowd plan.now }
{
    let Ok((table, mut seat)) = opened(alloc, policy, plan) else {
        return None;
    };
    let game = Game::new(&table, policy, plan);
    game.begin(rt, &mut seat);
    deal_and_take(rt, alloc, &game, &mut seat, steps)?;
    history_of(alloc, table, seat).ok()
}

/// Whether the history has so many entries, and each of them is legal.
pub(crate) fn is_whole_and_legal(
    alloc: Global,
    policy: &Policy,
    plan: &Plan,
    history: &History,
    entries: u32,
) -> Option<bool>
    requires policy { IsTried (meaning_of policy.now) }
    requires plan { IsCrowd plan.now }
{
    let Ok(legal) = is_legal(alloc, policy, plan, history.as_slice()) else {
        return None;
    };
    Some(legal && history.len() == entries)
}
