//! The state of the cores.

ghost use Rattle.std.specs.Prelude.{◌≡◌, ◌+◌, ◌*◌, ◌^◌, ◌≤◌, [], None, length, sum_by};

use lists::Items;
use sched_base::{MAX_ATTRIBUTES, MAX_THREADS, Task};
use std::alloc::Global;

/// Tasks, the earliest first.
pub type TaskList = Items<Task>;
/// Blocked tasks, the earliest first.
pub type BlockedList = Items<Blocked>;
/// The cores by their numbers.
pub type State = Items<ModelCore>;

/// A task that waits for a round.
#[derive(Clone, Copy)]
pub struct Blocked {
    pub task: Task,
    /// The first round in which it may wake.
    pub wake: u32,
}

/// One core.
#[derive(Drop)]
pub struct ModelCore {
    /// The task that runs the next unit, if there is one.
    pub current: Option<Task>,
    /// The tasks that wait for the core, in the order of their arrival.
    pub queue: TaskList,
    /// The tasks that wait for a round, in the order in which they blocked.
    pub blocked: BlockedList,
    /// The values of the core's attributes, which never change.
    pub consts: [i32; MAX_ATTRIBUTES],
}

/// What is seen of a core from outside, and all that changes of it.
#[derive(Clone, Copy)]
pub struct CountAndLoad {
    /// How many threads are current or queued.
    pub nr: u32,
    /// The sum of their weights.
    pub load: u64,
}

impl CountAndLoad {
    /// With one thread more, of that weight.
    fn with(self, weight: u32) -> CountAndLoad
        requires few { self.nr ≤ MAX_THREADS }
        requires light { self.load ≤ MAX_THREADS * 2 ^ 32 }
        ensures nr { result.nr ≡ 1 + self.nr }
        ensures load { result.load ≡ weight + self.load }
    {
        CountAndLoad {
            nr: 1 + self.nr,
            load: u64::from(weight) + self.load,
        }
    }
}

impl ModelCore {
    ghost use Rattle.round_model.specs.Cores.{seen_of, thread_count};

    /// A core without threads.
    pub fn idle(alloc: Global, consts: [i32; MAX_ATTRIBUTES]) -> ModelCore
        ensures { result ≡ record { current = None; queue = []; blocked = []; consts = consts } }
    {
        ModelCore {
            current: None,
            queue: TaskList::from_vec(Vec::new(alloc)),
            blocked: BlockedList::from_vec(Vec::new(alloc)),
            consts,
        }
    }

    /// What others see of the core.
    pub fn seen(&self) -> CountAndLoad
        requires { thread_count self.now ≤ MAX_THREADS }
        ensures { result ≡ seen_of self.now }
    {
        let queued = CountAndLoad {
            nr: self.queue.len(),
            load: weight_of(self.queue.as_slice()),
        };
        match self.current {
            None => queued,
            Some(task) => queued.with(task.weight),
        }
    }
}

/// The weights of these tasks, added up.
fn weight_of(tasks: &[Task]) -> u64
    requires { length tasks.now ≤ MAX_THREADS }
    ensures sum { result ≡ sum_by (λ (t : Task). t.weight) tasks.now }
    ensures small { result ≤ length tasks.now * 2 ^ 32 }
{
    let mut sum = 0;
    for task in tasks {
        sum += u64::from(task.weight);
    }
    sum
}
