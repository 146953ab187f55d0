//! Rounds by hand: of three cores, two of which look before either makes its attempt, and of two, one of which takes
//! several threads at once.

ghost use Rattle.policy_tree.specs.Meaning.{meaning_of};
ghost use Rattle.table_players.specs.Crowds.{IsCrowd, IsTried};
ghost use Rattle.table_players.specs.Games.{IsDealing, IsTable, Plays, table_in};

use crate::finding::{Finding, all_hold, told};
use crate::rounds::{Steps, played};
use crate::spelling::is_spelled;
use core_table::{Read, Seat};
use policy_tree::Policy;
use round_model::Plan;
use std::alloc::Global;
use std::rt::Files;
use std::sync::Wait;
use std::{fs, io};
use table_players::crowds::{crowd, placed_here, stolen_in_batches};
use table_players::game::Game;
use table_players::games::opened;
use table_players::players::Player;

/// The core that takes each step: core 0 takes its whole turn. Core 1 wakes none, works and looks, and so does core 2.
/// Then both make their attempts.
const ORDER: [usize; 14] = [0, 0, 0, 0, 0, 0, 1, 1, 1, 2, 2, 2, 1, 2];

/// The core that takes each step: core 0 takes its whole turn, in which six threads enter. Then core 1 takes its own.
const IN_TURN: [usize; 14] = [0, 0, 0, 0, 0, 0, 0, 0, 0, 0, 1, 1, 1, 1];

/// What the player's seat reads of its core, before and after it takes the core, publishes it as it is and lets it
/// go.
fn read_back<R: Wait>(rt: &R, game: &Game<'_>, player: Player) -> (Read, Read)
    requires { Plays (table_in game.now) player.core player }
{
    let Player { core, mut seat, .. } = player;
    let before = game.table.read(&mut seat, core);
    let held = game.table.hold(rt, &mut seat, core);
    game.table.publish(&mut seat, &held);
    game.table.release(&mut seat, held);
    (before, game.table.read(&mut seat, core))
}

/// Two cores look before either makes its attempt: the history is the one that a person worked out, as
/// `stale_read.history` has it.
pub(crate) fn a_stale_read<R: Files + Print + Alloc + Wait>(
    rt: &R,
    alloc: Global,
) -> io::Result<()> {
    let text = fs::read_to_string(rt, "stale_read.history")?;
    told(rt, "a stale read", stale_read(rt, alloc, text.as_str()))
}

/// Whether the history is the one of the text.
fn stale_read<R: Wait>(rt: &R, alloc: Global, text: &str) -> Option<Finding> {
    let Ok(policy) = placed_here(alloc) else {
        return None;
    };
    let Ok(plan) = crowd(alloc, 3, 2, 0) else {
        return None;
    };
    let history = played(rt, alloc, &policy, &plan, Steps::Of(&ORDER))?;
    let Ok(spelled) = is_spelled(alloc, &policy, &plan, history.as_slice(), text) else {
        return None;
    };
    Some(all_hold(&[("the history is the one of the file", spelled)]))
}

/// Core 1 takes three of the six threads of core 0: the history is the one that a person worked out, as
/// `batch.history` has it.
pub(crate) fn a_batch<R: Files + Print + Alloc + Wait>(rt: &R, alloc: Global) -> io::Result<()> {
    let text = fs::read_to_string(rt, "batch.history")?;
    told(rt, "a batch", batch(rt, alloc, text.as_str()))
}

/// Whether the history is the one of the text.
fn batch<R: Wait>(rt: &R, alloc: Global, text: &str) -> Option<Finding> {
    let Ok(policy) = stolen_in_batches(alloc) else {
        return None;
    };
    let Ok(plan) = crowd(alloc, 2, 6, 0) else {
        return None;
    };
    let history = played(rt, alloc, &policy, &plan, Steps::Of(&IN_TURN))?;
    let Ok(spelled) = is_spelled(alloc, &policy, &plan, history.as_slice(), text) else {
        return None;
    };
    Some(all_hold(&[("the history is the one of the file", spelled)]))
}

/// The seat of a core, which has let in two threads, takes and publishes the core.
pub(crate) fn reads_what_it_published<R: Wait>(rt: &R, alloc: Global) -> Option<Finding> {
    let Ok(policy) = placed_here(alloc) else {
        return None;
    };
    let Ok(plan) = crowd(alloc, 3, 2, 0) else {
        return None;
    };
    at_their_table(rt, alloc, &policy, &plan)
}

/// The same at a table of these.
fn at_their_table<R: Wait>(rt: &R, alloc: Global, policy: &Policy, plan: &Plan) -> Option<Finding>
    requires policy { IsTried (meaning_of policy.now) }
    requires plan { IsCrowd plan.now }
{
    let Ok((table, mut seat)) = opened(alloc, policy, plan) else {
        return None;
    };
    let game = Game::new(&table, policy, plan);
    game.begin(rt, &mut seat);
    Some(published(rt, &game, &mut seat))
}

/// The same once the round has begun.
fn published<R: Wait>(rt: &R, game: &Game<'_>, seat: &mut Seat) -> Finding
    requires table { IsTable (table_in game.now) }
    requires seat { IsDealing (table_in game.now) seat.old 0 }
{
    let mut player = first_player(game, seat);
    game.step(rt, &mut player);
    game.step(rt, &mut player);
    let (before, after) = read_back(rt, game, player);
    let both_came = Read {
        at: 3,
        nr: 2,
        load: 2,
    };
    all_hold(&[
        ("both threads came", before == both_came),
        ("nothing else has touched the core", after == both_came),
    ])
}

/// The player of core 0.
fn first_player(game: &Game<'_>, seat: &mut Seat) -> Player
    requires table { IsTable (table_in game.now) }
    requires seat { IsDealing (table_in game.now) seat.old 0 }
    ensures { Plays (table_in game.now) result.core result }
{
    game.deal(seat, 0)
}
