//! What each command of the program answers, over files and a sink that are handed in.
#![tactic(auto)]

mod accepted;
mod answers;
mod commands;
mod ending;
mod exports;
mod files;
mod kinds;
mod status;
mod stop;
mod texts;
mod top;

pub use status::Status;
pub use top::{ipanema, serial_command};
