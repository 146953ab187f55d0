//! Plays the tables of calls in `data/` over the program's top call, with files and a sink in memory, and prints of
//! each table how many calls answered as expected, and every one that didn't. A few checks that no table can hold
//! stand in code behind them.
#![tactic(auto)]

mod calls;
mod case;
mod cut;
mod edges;
mod expected;
mod meeting;
mod misread;
mod one_steal;
mod options;
mod playing;
mod shelf;
mod spelling;

use crate::edges::{loads_and_pieces_are_kept, readers_and_writers, steady_sink};
use crate::meeting::{two_cores_meet, two_workers_meet};
use crate::playing::play_tables;
use std::io;

fn main(rt: HostRuntime) -> io::Result<()> {
    let alloc = rt.alloc();
    play_tables(&rt, alloc)?;
    told(&rt, "two cores meet", two_cores_meet(&rt, alloc)?)?;
    told(&rt, "two workers meet", two_workers_meet(&rt, alloc)?)?;
    told(
        &rt,
        "loads and pieces are kept",
        loads_and_pieces_are_kept(alloc)?,
    )?;
    told(&rt, "readers and writers", readers_and_writers(alloc))?;
    told(&rt, "a steady sink", steady_sink(&rt, alloc)?)
}

/// Prints whether a check came out as expected.
fn told<R: Print>(rt: &R, name: &str, holds: bool) -> io::Result<()> {
    println!(rt;
        "{name}: {}",
        if holds { "as expected" } else { "otherwise" }
    )
}
