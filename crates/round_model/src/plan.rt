//! A plan: the cores, the threads with their programs, and the bounds of a run.

use lists::Items;
use sched_base::{CoreId, MAX_ATTRIBUTES, ThreadId};

/// The bursts of a program in their order.
pub type BurstList = Items<Burst>;
/// Numbers of cores, in the order in which they take steps.
pub type CoreList = Items<CoreId>;
/// The constants of each core in order.
pub type ConstList = Items<[i32; MAX_ATTRIBUTES]>;
/// The threads of a plan, in the order of the trace.
pub type PlannedList = Items<Planned>;
/// The order lines of a plan.
pub type OrderList = Items<OrderLine>;

/// What follows the last unit of a burst.
#[derive(Clone, Copy)]
pub enum Ending {
    /// The thread yields, and its next burst follows.
    Yield,
    /// The thread blocks for so many rounds, and its next burst follows.
    Block(u32),
    /// The thread ends.
    End,
    /// There is no last unit.
    Forever,
}

/// A stretch of a thread's program.
#[derive(Clone, Copy)]
pub struct Burst {
    /// The units that it runs, 1 where it has no last one.
    pub units: u32,
    pub ending: Ending,
}

/// A thread that a plan lets in.
#[derive(Drop)]
pub struct Planned {
    pub id: ThreadId,
    /// The core that lets it in.
    pub core: CoreId,
    /// The round in which that core lets it in.
    pub round: u32,
    /// What it adds to the load of its core.
    pub weight: u32,
    pub bursts: BurstList,
}

/// In which order the cores take their steps in one round of serial play.
#[derive(Drop)]
pub struct OrderLine {
    pub round: u32,
    pub cores: CoreList,
}

/// What is to be run.
#[derive(Drop)]
pub struct Plan {
    /// The number of cores.
    pub cores: u32,
    /// The number of rounds, the last of which needn't come.
    pub rounds: u32,
    /// The most entries of a history that is run or played.
    pub limit: u32,
    pub consts: ConstList,
    pub threads: PlannedList,
    pub orders: OrderList,
}
