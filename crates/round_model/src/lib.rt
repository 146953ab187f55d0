//! The model: what plans, states and histories mean, which histories are legal, and the laws of them.
#![tactic(auto)]

pub mod attempt;
pub mod choices;
pub mod election;
pub mod entry;
mod filtering;
pub mod laws;
pub mod measures;
pub mod memory;
pub mod plan;
pub mod programs;
mod starting;
pub mod state;
pub mod windows;

pub use crate::choices::{choice, target};
pub use crate::entry::{Did, Entry, History};
pub use crate::filtering::{goes_on, may_steal, values_of};
pub use crate::measures::spread_of;
pub use crate::memory::ModelMemory;
pub use crate::plan::{
    Burst, BurstList, ConstList, CoreList, Ending, OrderLine, OrderList, Plan, Planned, PlannedList,
};
pub use crate::programs::{Meeting, meeting_of, next_burst, place_after, planned};
pub use crate::starting::entering_task;
pub use crate::state::{Blocked, BlockedList, ModelCore, State, TaskList};
pub use crate::windows::{reads_fit, round_start};
