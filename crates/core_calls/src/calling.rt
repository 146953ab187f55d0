//! A core's turn at the shared table.

ghost use Rattle.std.specs.Prelude.{◌≡◌, ◌<◌, refl};
ghost use Rattle.std.proofs.Common.{◌∙◌};
ghost use Rattle.core_table.specs.Public.{IsOf, plan_of, policy_of, view_of};
ghost use Rattle.core_table.specs.Told.{IsSeatOf};
ghost use Rattle.core_calls.specs.Actors.{actor_of, seat_of, table_of};
ghost use Rattle.core_calls.specs.Turns.{IsAtTable};

use crate::actor::Actor;
use crate::calls::CoreCalls;
use crate::seat_calls::SeatCalls;
use core_table::{Seat, Table};
use policy_tree::Policy;
use round_model::{Did, Plan};
use sched_base::{CoreId, Pos, ThreadId};
use sched_io::Gate;
use select_phase::{Look, look};
use std::sync::Wait;
use steal_phase::{Outcome, attempt};

impl<'a> SeatCalls<'a> {
    /// The core at that table, by its seat. The table was opened with these two.
    pub fn new(
        table: &'a Table,
        seat: Seat,
        policy: &'a Policy,
        plan: &'a Plan,
        core: CoreId,
    ) -> SeatCalls<'a>
        requires opened { (policy.now ≡ policy_of table.now) × (plan.now ≡ plan_of table.now) }
        requires seat { IsOf table.now seat }
        requires of_core { IsSeatOf (view_of seat) core }
        requires core { core < (plan_of table.now).cores }
        ensures ready { IsAtTable result }
        ensures table { table_of (actor_of result) ≡ table.now }
        ensures seat { seat_of result ≡ seat }
    {
        SeatCalls {
            actor: Actor::new(table, policy, plan, core),
            seat,
        }
    }

    /// The seat, as the calls left it.
    pub fn into_seat(self) -> Seat
        ensures { result ≡ seat_of self.entry }
    {
        self.seat
    }
}

impl CoreCalls for SeatCalls<'_> {
    ghost view = { λ it. view_of (seat_of it) };

    ghost ready = { IsAtTable };

    ghost follows = { λ before now. table_of (actor_of now) ≡ table_of (actor_of before) };

    fn enter<R: Wait>(&mut self, rt: &R, thread: ThreadId) -> Pos {
        self.actor.enter(rt, &mut self.seat, thread)
    }

    fn wake_next<R: Wait>(&mut self, rt: &R, round: u32) -> Option<Pos> {
        self.actor.wake_next(rt, &mut self.seat, round)
    }

    fn work<R: Wait>(&mut self, rt: &R, round: u32) -> Did {
        self.actor.work(rt, &mut self.seat, round)
    }

    fn look<G: Gate>(&mut self, _gate: &G) -> Look {
        let Actor {
            table,
            policy,
            core,
            ..
        } = self.actor;
        look(table, &mut self.seat, policy, core)
    }

    fn attempt<R: Wait>(&mut self, rt: &R, look: Look) -> Outcome {
        let Actor { table, policy, .. } = self.actor;
        attempt(table, rt, &mut self.seat, policy, look)
    }

    ghost known = { λ it ready. it.seat.known };

    ghost at_first = { λ it. refl };

    ghost in_a_row = { λ first next last one other. other ∙ one };
}
