//! Cores that take their turns step by step, each by its own seat.

ghost use Rattle.std.specs.Prelude.{◌≡◌, ◌<◌, MatchOption, length};
ghost use Rattle.core_table.specs.Public.{plan_of};
ghost use Rattle.core_calls.specs.Actors.{core_of, table_of};
ghost use Rattle.table_players.specs.declared.players.Stage.TheVariants as stage_of;
ghost use Rattle.table_players.specs.Games.{IsAt, IsWhether, LetsNext, LetsNone, Plays, table_in};

use crate::game::Game;
use core_calls::Actor;
use core_table::Seat;
use round_model::Plan;
use sched_base::CoreId;
use select_phase::{Look, look};
use std::sync::Wait;
use steal_phase::attempt;

/// What a core does next in its turn.
#[derive(Clone, Copy)]
pub enum Stage {
    /// It lets threads in, those before that place of the plan being in already.
    Entering(u32),
    /// It wakes the next thread that is due.
    Waking,
    /// It runs its unit.
    Working,
    /// It looks at all cores.
    Looking,
    /// It makes its attempt by that look.
    Attempting(Look),
    /// Nothing more.
    Over,
}

/// A core with its seat and what it does next.
#[derive(Drop)]
pub struct Player {
    pub core: CoreId,
    pub seat: Seat,
    pub stage: Stage,
}

impl Player {
    /// Whether the turn is over.
    pub fn is_over(&self) -> bool
        ensures { IsWhether (self.now.stage ≡ stage_of.Over) result }
    {
        matches!(self.stage, Stage::Over)
    }
}

/// The place of the next thread that the core is to let in in round 1, from that place on.
fn next_place(plan: &Plan, core: CoreId, from: u32) -> Option<u32>
    ensures { MatchOption result (LetsNone core plan.now.threads from (length plan.now.threads))
        (λ at. LetsNext core plan.now.threads from at) }
{
    for at in from..plan.threads.len() {
        let thread = plan.threads.get(at);
        if thread.core == core && thread.round == 1 {
            return Some(at);
        }
    }
    None
}

impl Game<'_> {
    /// The player takes the next step of its turn.
    pub fn step<R: Wait>(&self, rt: &R, player: &mut Player)
        requires { Plays (table_in self.now) player.old.core player.old }
        ensures { Plays (table_in self.now) player.old.core player.new }
    {
        let stage = self.step_of(rt, &mut player.seat, player.core, player.stage);
        player.stage = stage;
    }

    /// The player takes all steps of its turn.
    pub fn turn<R: Wait>(&self, rt: &R, player: Player) -> Player
        requires { Plays (table_in self.now) player.core player }
        ensures { Plays (table_in self.now) player.core result }
    {
        let mut player = player;
        for _ in rt.forever() {
            if player.is_over() {
                return player;
            }
            self.step(rt, &mut player);
        }
        unreachable!()
    }

    /// The next step of the core. It says what the core does then.
    fn step_of<R: Wait>(&self, rt: &R, seat: &mut Seat, core: CoreId, stage: Stage) -> Stage
        requires { IsAt (table_in self.now) seat.old core stage }
        ensures { IsAt (table_in self.now) seat.new core result }
    {
        match stage {
            Stage::Entering(place) => self.enter(rt, seat, core, place),
            Stage::Waking => self.wake(rt, seat, core),
            Stage::Working => self.work(rt, seat, core),
            Stage::Looking => self.look(seat, core),
            Stage::Attempting(look) => self.attempt(rt, seat, core, look),
            Stage::Over => Stage::Over,
        }
    }

    /// The core lets its next thread in. Where there is none, it wakes one.
    fn enter<R: Wait>(&self, rt: &R, seat: &mut Seat, core: CoreId, place: u32) -> Stage
        requires { IsAt (table_in self.now) seat.old core (stage_of.Entering place) }
        ensures { IsAt (table_in self.now) seat.new core result }
    {
        let Some(at) = next_place(self.plan, core, place) else {
            return self.wake(rt, seat, core);
        };
        let thread = self.plan.threads.get(at).id;
        self.actor(core).enter(rt, seat, thread);
        Stage::Entering(at + 1)
    }

    /// The core wakes the next thread that is due, if there is one.
    fn wake<R: Wait>(&self, rt: &R, seat: &mut Seat, core: CoreId) -> Stage
        requires { IsAt (table_in self.now) seat.old core stage_of.Waking }
        ensures { IsAt (table_in self.now) seat.new core result }
    {
        match self.actor(core).wake_next(rt, seat, 1) {
            None => Stage::Working,
            Some(_position) => Stage::Waking,
        }
    }

    /// The core runs its unit.
    fn work<R: Wait>(&self, rt: &R, seat: &mut Seat, core: CoreId) -> Stage
        requires { IsAt (table_in self.now) seat.old core stage_of.Working }
        ensures { IsAt (table_in self.now) seat.new core result }
    {
        self.actor(core).work(rt, seat, 1);
        Stage::Looking
    }

    /// The core looks at all cores.
    fn look(&self, seat: &mut Seat, core: CoreId) -> Stage
        requires { IsAt (table_in self.now) seat.old core stage_of.Looking }
        ensures { IsAt (table_in self.now) seat.new core result }
    {
        Stage::Attempting(look(self.table, seat, self.policy, core))
    }

    /// The core makes its attempt.
    fn attempt<R: Wait>(&self, rt: &R, seat: &mut Seat, core: CoreId, look: Look) -> Stage
        requires { IsAt (table_in self.now) seat.old core (stage_of.Attempting look) }
        ensures { IsAt (table_in self.now) seat.new core result }
    {
        attempt(self.table, rt, seat, self.policy, look);
        Stage::Over
    }

    /// The core of that number, as it acts at the table.
    fn actor(&self, core: CoreId) -> Actor<'_>
        requires { core < (plan_of (table_in self.now)).cores }
        ensures table { table_of result ≡ table_in self.now }
        ensures core { core_of result ≡ core }
    {
        Actor::new(self.table, self.policy, self.plan, core)
    }
}
