//! The shared table of running cores: threads hold cores one or two at a time, and read the others without waiting.
//!
//! A word numbers the entries, a word of each core says what others may see of it, and a slot has the core itself with
//! its log. Whatever the threads do, all logs together are those of one legal history. Only `open` takes memory.
#![tactic(auto)]

mod cuts;
mod draws;
mod ends;
pub mod fault;
mod pairs;
mod plays;
pub mod seat;
mod seats;
mod slots;
mod steps;
mod table;
mod views;
mod writes;

pub use crate::fault::TableFault;
pub use crate::seat::{Held, HeldTwo, Read, Seat, Table};
