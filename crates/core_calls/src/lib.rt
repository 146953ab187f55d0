//! What a core does in its turn at the shared table: it lets threads in, wakes those that are due, runs one unit of
//! work, looks at all cores, and makes its attempt.
//!
//! Each step with an entry waits for the cores that this touches, moves the thread, draws the entry, shows the cores
//! and lets them go. The entry is legal behind all that was drawn before it, whatever other cores did meanwhile. No
//! call takes memory. The last two steps are `look` of `select_phase` and `attempt` of `steal_phase`.
#![tactic(auto)]

mod acting;
pub mod actor;
mod away;
mod calling;
pub mod calls;
mod entering;
mod finishing;
pub mod seat_calls;
mod stepping;
mod steps;
pub mod turned;
mod turns;
mod waking;
mod working;

pub use crate::actor::Actor;
pub use crate::calls::CoreCalls;
pub use crate::seat_calls::SeatCalls;
pub use crate::stepping::crew_step;
pub use crate::turned::Turned;
pub use crate::turns::turn;
