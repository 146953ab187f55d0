//! Plays a trace's text under a policy: what it comes to, and how that is written.
#![tactic(auto)]

mod answer;
mod cores;
mod fault;
mod planning;
mod playing;

pub use answer::PlayAnswer;
pub use cores::PlayedCores;
pub use fault::{FaultWord, LineFault};
pub use planning::{PlanStop, plan_text};
pub use playing::{PlayMemory, play_cores, play_plan, play_text, play_under};
