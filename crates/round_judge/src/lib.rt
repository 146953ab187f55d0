//! The judge of the next entry, and the step that adds it to what is kept of a history.
#![tactic(auto)]

mod adding;
mod attempts;
mod batches;
mod changes;
mod directory;
pub mod glances;
pub mod judge;
mod moves;
mod notes;
pub mod past;
pub mod progress;
mod rounds;
mod stealing;
pub mod unit;

pub use crate::adding::step;
pub use crate::judge::step_ok;
pub use crate::notes::note_end;
pub use crate::past::{Arrival, Past, is_due_by, opening, round_due};
pub use crate::progress::first_arrival;
