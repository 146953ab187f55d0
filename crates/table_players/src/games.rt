//! A table as it is played: the cores' seats are dealt in round 1 and taken back, and the histories are judged.

ghost use Rattle.std.specs.Prelude.{◌≡◌, ◌+◌, ◌<◌, ◌≤◌, IfOk, length};
ghost use Rattle.sched_base.specs.declared.limits.TheConstants.{MAX_ENTRIES};
ghost use Rattle.policy_tree.specs.Meaning.{meaning_of};
ghost use Rattle.round_model.specs.Legal.{Legal};
ghost use Rattle.history_merge.specs.Merged.{AreLogsOfFew};
ghost use Rattle.core_table.specs.Ends.{IsClosed};
ghost use Rattle.core_table.specs.Public.{plan_of, policy_of, view_of};
ghost use Rattle.core_table.specs.Told.{Agrees};
ghost use Rattle.table_players.specs.Crowds.{IsCrowd, IsTried};
ghost use Rattle.table_players.specs.Games.{IsDealing, IsTable, IsTaking, IsWhether, PlayAll, Plays, table_in};
ghost use Rattle.table_players.specs.Tables.{IsFree, IsUnbegun};

use crate::game::Game;
use crate::players::{Player, Stage};
use core_state::Closed;
use core_table::{Seat, Table, TableFault};
use history_merge::{HistoryMemory, merge};
use model_tests::steps::legal_length;
use policy_tree::Policy;
use round_model::{Entry, History, ModelMemory, Plan};
use sched_base::{CoreId, MAX_ENTRIES};
use std::alloc::{AllocError, Global};
use std::sync::Wait;

/// The table and its opening seat.
pub fn opened(alloc: Global, policy: &Policy, plan: &Plan) -> Result<(Table, Seat), TableFault>
    requires policy { IsTried (meaning_of policy.now) }
    requires plan { IsCrowd plan.now }
    ensures opening { IfOk result (λ t. (policy.now ≡ policy_of t.0) × (plan.now ≡ plan_of t.0)) }
    ensures table { IfOk result (λ t. IsTable t.0) }
    ensures seat { IfOk result (λ t. IsUnbegun t.0 t.1) }
{
    let (table, seat) = Table::open(alloc, policy, plan)?;
    Ok((table, seat))
}

impl<'a> Game<'a> {
    /// That table, which was opened with these.
    pub fn new(table: &'a Table, policy: &'a Policy, plan: &'a Plan) -> Game<'a>
        requires opening { (policy.now ≡ policy_of table.now) × (plan.now ≡ plan_of table.now) }
        ensures { table_in result ≡ table.now }
    {
        Game {
            table,
            policy,
            plan,
        }
    }

    /// Round 1 begins.
    pub fn begin<R: Wait>(&self, rt: &R, seat: &mut Seat)
        requires table { IsTable (table_in self.now) }
        requires seat { IsUnbegun (table_in self.now) seat.old }
        ensures { IsDealing (table_in self.now) seat.new 0 }
    {
        self.table.draw_round(rt, seat, 1);
    }

    /// A player for the core, which is the next to get one.
    pub fn deal(&self, seat: &mut Seat, core: CoreId) -> Player
        requires table { IsTable (table_in self.now) }
        requires seat { IsDealing (table_in self.now) seat.old core }
        requires core { core < (plan_of (table_in self.now)).cores }
        ensures seat { IsDealing (table_in self.now) seat.new (core + 1) }
        ensures player { Plays (table_in self.now) core result }
    {
        let seat = self.table.split_for_core(seat, core);
        Player {
            core,
            seat,
            stage: Stage::Entering(0),
        }
    }

    /// A player for each core.
    pub fn deal_all(&self, alloc: Global, seat: &mut Seat) -> Result<Vec<Player>, AllocError>
        requires table { IsTable (table_in self.now) }
        requires seat { IsDealing (table_in self.now) seat.old 0 }
        ensures seat { IfOk result (λ players. IsTaking (table_in self.now) seat.new (length players.items)) }
        ensures players { IfOk result (λ players. PlayAll (table_in self.now) players.items) }
    {
        let mut players = Vec::with_capacity(alloc, self.table.cores() as usize)?;
        for core in 0..self.table.cores() {
            players.push(self.deal(seat, core))?;
        }
        Ok(players)
    }

    /// Takes back the seat of the core that is the next below those that are back.
    pub fn take_back(&self, seat: &mut Seat, player: Player)
        requires seat { IsTaking (table_in self.now) seat.old (player.core + 1) }
        requires player { Plays (table_in self.now) player.core player }
        ensures { IsTaking (table_in self.now) seat.new player.core }
    {
        let Player { seat: back, .. } = player;
        self.table.join_back(seat, back);
    }

    /// Takes the seats of all cores back.
    pub fn take_all_back(&self, seat: &mut Seat, players: Vec<Player>)
        requires seat { IsTaking (table_in self.now) seat.old (length players.items) }
        requires players { PlayAll (table_in self.now) players.items }
        ensures { IsFree (table_in self.now) seat.new }
    {
        let mut players = players;
        while let Some(player) = players.pop() {
            self.take_back(seat, player);
        }
    }
}

/// The cores and the logs at the end.
pub fn closed(table: Table, seat: Seat) -> Closed
    requires { IsFree table seat }
    ensures logs { AreLogsOfFew result }
    ensures closed { IsClosed (view_of seat) result }
{
    table.close(seat)
}

/// The history, back from the logs at the end.
pub fn history_of(alloc: Global, table: Table, seat: Seat) -> Result<History, HistoryMemory>
    requires { IsFree table seat }
    ensures { IfOk result (Agrees (view_of seat)) }
{
    let closed = closed(table, seat);
    let history = merge(alloc, &closed)?;
    Ok(history)
}

/// Whether the model finds each entry legal behind those before it, and there are no more than a history may have.
pub fn is_legal(
    alloc: Global,
    policy: &Policy,
    plan: &Plan,
    entries: &[Entry],
) -> Result<bool, ModelMemory>
    requires policy { IsTried (meaning_of policy.now) }
    requires plan { IsCrowd plan.now }
    ensures { IfOk result
        (IsWhether ((length entries.now ≤ MAX_ENTRIES) × Legal (meaning_of policy.now) plan.now entries.now)) }
{
    if entries.len() > MAX_ENTRIES as usize {
        return Ok(false);
    }
    let length = legal_length(alloc, policy, plan, entries)?;
    Ok(length as usize == entries.len())
}
