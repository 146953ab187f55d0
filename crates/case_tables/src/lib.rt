//! Tables of cases for test programs: how the texts of a table are spelled, how its cases are played, and what is
//! printed of it.
#![tactic(auto)]

mod misread;
mod playing;
mod spelling;
mod telling;
mod texts;

pub use playing::{Answers, play_table};
pub use telling::told;
