//! A queue and a plain list to which the same is done, by the dice.

ghost use Rattle.std.specs.Prelude.{◌≡◌};
ghost use Rattle.policy_tree.specs.Meaning.{order_tree};
ghost use Rattle.policy_eval.specs.Evaluable.{IsEvaluableOrder};

use crate::drawn::{Drawn, rolled};
use crate::plain::{best_place, load_of, number_at, place_of, take_out};
use lists::Items;
use policy_tree::Order;
use run_queue::Queue;
use sched_base::Task;
use std::alloc::Global;

/// How many tasks have room.
const ROOM: u32 = 64;

/// So many things are done to both.
const TURNS: u32 = 2000;

/// For so many turns both fill up, and for as many they run dry.
const TIDE: u32 = 200;

/// What the dice show before they are rolled.
const SEED: u64 = 2026;

/// Whether in each turn a queue that elects by the first order gives the same as a plain list, also where both are
/// asked for the best by the second order.
pub(crate) fn gives_the_same(alloc: Global, elect: &Order, steal: &Order) -> bool
    requires elect { IsEvaluableOrder (order_tree elect.now) }
    requires steal { IsEvaluableOrder (order_tree steal.now) }
{
    let Ok(mut queue) = Queue::with_room(alloc, ROOM, elect) else {
        return false;
    };
    let mut tasks = Items::from_vec(Vec::new(alloc));
    all_turns(&mut queue, &mut tasks, elect, steal)
}

/// Whether both agree in all turns.
fn all_turns(queue: &mut Queue, tasks: &mut Items<Drawn>, elect: &Order, steal: &Order) -> bool
    requires room { queue.old.room ≡ ROOM }
    requires elect { IsEvaluableOrder (order_tree elect.now) }
    requires steal { IsEvaluableOrder (order_tree steal.now) }
{
    let mut dice = SEED;
    for turn in 0..TURNS {
        dice = rolled(dice);
        let agree = one_turn(queue, tasks, elect, turn, dice >> 33);
        if !agree || !look_alike(queue, tasks, steal) {
            return false;
        }
    }
    true
}

/// Whether both look alike: how many tasks they have, their load, and the best by the order.
fn look_alike(queue: &Queue, tasks: &Items<Drawn>, steal: &Order) -> bool
    requires { IsEvaluableOrder (order_tree steal.now) }
{
    queue.len() == tasks.len()
        && queue.load() == load_of(tasks)
        && queue.best_for_steal(steal) == number_at(tasks, best_place(tasks, steal))
}

/// What the dice say is done to both. Whether they agree.
fn one_turn(
    queue: &mut Queue,
    tasks: &mut Items<Drawn>,
    elect: &Order,
    turn: u32,
    dice: u64,
) -> bool
    requires room { queue.old.room ≡ ROOM }
    requires elect { IsEvaluableOrder (order_tree elect.now) }
    ensures { queue.new.room ≡ ROOM }
{
    let drawn = Drawn {
        id: (dice / 16 % 16) as u32 + 1,
        arrival: turn,
        dice: dice / 256,
    };
    if dice % 8 < pushes(turn) {
        return push_both(queue, tasks, drawn);
    }
    if dice / 8 % 2 == 0 {
        return are_same(queue.pop_best(), take_out(tasks, best_place(tasks, elect)));
    }
    are_same(
        queue.take_thread(drawn.id),
        take_out(tasks, place_of(tasks, drawn.id)),
    )
}

/// In how many of eight turns a task comes in: so many that both fill up, and then so few that both run dry.
fn pushes(turn: u32) -> u64 {
    if turn / TIDE % 2 == 0 { 5 } else { 2 }
}

/// The task comes to both, where there is room. Whether there was memory for it.
fn push_both(queue: &mut Queue, tasks: &mut Items<Drawn>, drawn: Drawn) -> bool
    requires { queue.old.room ≡ ROOM }
    ensures { queue.new.room ≡ ROOM }
{
    if queue.len() < ROOM && tasks.len() < ROOM {
        queue.push(drawn.task());
        return tasks.push(drawn).is_ok();
    }
    true
}

/// Whether both are the same task, or no task.
fn are_same(first: Option<Task>, second: Option<Task>) -> bool {
    match (first, second) {
        (Some(first), Some(second)) => {
            first.id == second.id
                && first.weight == second.weight
                && first.attrs == second.attrs
                && first.place.done == second.place.done
        }
        (None, None) => true,
        _ => false,
    }
}
