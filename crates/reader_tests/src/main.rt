//! Plays the tables of `data/` over the readers of traces and of histories, over the planner, the printer of traces and
//! the maker of traces, and prints how many cases of each part came out as expected, and every one that didn't.
//! Histories that a person worked out stand in code behind them.
#![tactic(auto)]

mod entries;
mod histories;
mod made;
mod numbers;
mod planning;
mod plans;
mod policies;
mod printing;
mod tables;
mod traces;
mod worked;

use crate::tables::play_tables;
use crate::worked::tell_histories;
use std::io;

fn main(rt: HostRuntime) -> io::Result<()> {
    let alloc = rt.alloc();
    play_tables(&rt, alloc)?;
    tell_histories(&rt, alloc)
}
