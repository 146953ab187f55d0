//! A worker plays its hands, one step each, again and again.

ghost use Rattle.std.specs.Prelude.{◌≡◌, ℕ, true, false, length, vec_capacity, IsTrue};
ghost use Rattle.parallel_play.specs.Stages.{table_in};
ghost use Rattle.turn_steps.specs.Reaches.{IsOver};
ghost use Rattle.crew_play.specs.Hands.{AllOver, AreSteps, IsCrew, IsHandOf, IsStep, turn_in};

use crate::hands::Hand;
use core_calls::{SeatCalls, crew_step};
use parallel_play::Stage;
use sched_io::Gate;
use std::sync::Wait;

/// One step of the hand. Its seat is taken out of its place, and put back.
fn step_hand<R: Wait, G: Gate>(rt: &R, stage: &Stage<'_>, gate: &G, hand: &mut Hand) -> bool
    requires hand { IsHandOf (table_in stage.now) (G.passed gate.now) (turn_in hand.old).core stage.now.round hand.old }
    requires gate { (c : ℕ) → IsTrue (G.admits gate.now c stage.now.round) }
    ensures hand { IsHandOf (table_in stage.now) (G.passed gate.now) (turn_in hand.old).core stage.now.round hand.new }
    ensures over { result ≡ false → IsOver (turn_in hand.new).reached }
    ensures step { IsStep hand.old hand.new }
{
    let Some(seat) = hand.seat.take() else {
        unreachable!()
    };
    let core = hand.turning.core();
    let mut calls = SeatCalls::new(stage.table, seat, stage.policy, stage.plan, core);
    let goes_on = crew_step(rt, &mut calls, &mut hand.turning, stage.plan, gate);
    hand.seat = Some(calls.into_seat());
    goes_on
}

/// One step of each hand, in the order of their cores. True where that finds all over.
fn step_all<R: Wait, G: Gate>(
    rt: &R,
    stage: &Stage<'_>,
    gate: &G,
    first: u32,
    hands: &mut Vec<Hand>,
) -> bool
    requires crew { IsCrew (table_in stage.now) (G.passed gate.now) stage.now.round first hands.old.items }
    requires gate { (c : ℕ) → IsTrue (G.admits gate.now c stage.now.round) }
    ensures crew { IsCrew (table_in stage.now) (G.passed gate.now) stage.now.round first hands.new.items }
    ensures over { result ≡ true → AllOver hands.new.items }
    ensures steps { AreSteps hands.old.items hands.new.items }
    ensures len { length hands.new.items ≡ length hands.old.items }
    ensures capacity { vec_capacity hands.new ≡ vec_capacity hands.old }
{
    let mut over = true;
    for hand in hands.iter_mut() {
        if step_hand(rt, stage, gate, hand) {
            over = false;
        }
    }
    over
}

/// The worker's part: its hands come back with their turns over. Each pass tells each turn more that isn't over. A turn
/// is told of no more entries than the plan's limit, and of two things besides: that nothing is due, and the look.
pub(crate) fn play_hands<R: Wait, G: Gate>(
    rt: &R,
    stage: &Stage<'_>,
    gate: &G,
    first: u32,
    mut hands: Vec<Hand>,
) -> Vec<Hand>
    requires crew { IsCrew (table_in stage.now) (G.passed gate.now) stage.now.round first hands.items }
    requires gate { (c : ℕ) → IsTrue (G.admits gate.now c stage.now.round) }
    ensures crew { IsCrew (table_in stage.now) (G.passed gate.now) stage.now.round first result.items }
    ensures over { AllOver result.items }
    ensures len { length result.items ≡ length hands.items }
    ensures capacity { vec_capacity result ≡ vec_capacity hands }
{
    let passes = u64::from(stage.plan.limit) + 3;
    for _ in 0..passes {
        if step_all(rt, stage, gate, first, &mut hands) {
            return hands;
        }
    }
    hands
}
