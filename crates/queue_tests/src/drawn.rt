//! Tasks as they are drawn, and the dice that they are drawn by.

ghost use Rattle.std.specs.Prelude.{◌≤ℤ◌, pos};
ghost use Rattle.run_queue.specs.Tasks.{IsSeenTask};

use sched_base::{Place, Task, ThreadId};

/// A task as it was drawn.
#[derive(Clone, Copy)]
pub(crate) struct Drawn {
    /// The number of its thread, which other tasks may have too.
    pub(crate) id: ThreadId,
    /// How many were drawn before it. No other task has this number.
    pub(crate) arrival: u32,
    /// What its weight and its attributes come from.
    pub(crate) dice: u64,
}

impl Drawn {
    /// The task. Its arrival stands where a thread has the units that are done.
    pub(crate) fn task(self) -> Task
        ensures { IsSeenTask result }
    {
        Task {
            id: self.id,
            weight: (self.dice % 8) as u32 + 1,
            attrs: [
                small(self.dice / 8),
                small(self.dice / 32),
                0,
                0,
                0,
                0,
                0,
                0,
            ],
            place: Place {
                burst: 0,
                done: self.arrival,
            },
        }
    }
}

/// A number from 0 to 3 by the dice.
fn small(dice: u64) -> i32
    ensures least { pos 0 ≤ℤ result }
    ensures most { result ≤ℤ pos 3 }
{
    match dice % 4 {
        0 => 0,
        1 => 1,
        2 => 2,
        _ => 3,
    }
}

/// The dice once they are rolled again. Their upper digits are the best.
pub(crate) fn rolled(dice: u64) -> u64 {
    dice.wrapping_mul(6_364_136_223_846_793_005)
        .wrapping_add(1_442_695_040_888_963_407)
}
