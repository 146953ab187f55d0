//! Plays the tables of `data/` over obligations, systems, certificates, their texts and the deciders, and prints how
//! many cases of each part came out as expected, and every one that didn't.
#![tactic(auto)]

mod certificates;
mod counts;
mod deciding;
mod names;
mod points;
mod policies;
mod spelling;
mod systems;
mod tables;
mod verdicts;
mod written_systems;

use crate::names::names_there_and_back;
use crate::tables::play_tables;
use case_tables::told;
use std::io;

fn main(rt: HostRuntime) -> io::Result<()> {
    play_tables(&rt, rt.alloc())?;
    told(&rt, "names there and back", names_there_and_back())
}
