//! Plays what a running core stands on through the public calls, and prints of each check whether it came out as
//! expected: a pool, two cores, load words, merged logs, and the shared table with its players.
#![tactic(auto)]

mod cores;
mod dice;
mod finding;
mod interleavings;
mod merges;
mod pools;
mod rounds;
mod seat_threads;
mod seats;
mod spelling;
mod spreads;
mod tables;
mod words;

use crate::finding::told;
use std::alloc::Global;
use std::io;
use std::rt::Files;
use std::sync::Wait;
use std::thread::Threads;

fn main(rt: HostRuntime) -> io::Result<()> {
    let alloc = rt.alloc();
    below_the_table(&rt, alloc)?;
    at_the_table(&rt, alloc)
}

/// What stands below the shared table.
fn below_the_table<R: Files + Print + Alloc>(rt: &R, alloc: Global) -> io::Result<()> {
    told(rt, "a pool of one node", pools::of_one_node(alloc))?;
    words::at_their_edges(rt)?;
    told(
        rt,
        "a thread blocks and another is stolen",
        cores::one_blocks_and_one_is_stolen(alloc),
    )?;
    told(rt, "logs with a steal", merges::with_a_steal(alloc))?;
    told(rt, "logs of nothing", merges::of_nothing(alloc))
}

/// The shared table, with its opening seat alone, with seats in some order, and with seats in threads.
fn at_the_table<R: Files + Print + Alloc + Threads + Wait + Sync>(
    rt: &R,
    alloc: Global,
) -> io::Result<()> {
    told(
        rt,
        "a table begins its first round",
        tables::begins_its_first_round(rt, alloc),
    )?;
    told(
        rt,
        "a seat and a table go to threads",
        tables::go_to_threads(rt, alloc),
    )?;
    seats::a_stale_read(rt, alloc)?;
    seats::a_batch(rt, alloc)?;
    told(
        rt,
        "a seat reads what it published",
        seats::reads_what_it_published(rt, alloc),
    )?;
    told(
        rt,
        "threads stay where they enter",
        interleavings::stay_where_they_enter(rt, alloc),
    )?;
    told(
        rt,
        "threads go to the least load",
        interleavings::go_to_the_least_load(rt, alloc),
    )?;
    told(
        rt,
        "threads are stolen in batches",
        interleavings::are_stolen_in_batches(rt, alloc),
    )?;
    told(
        rt,
        "two cores in threads",
        seat_threads::two_cores(rt, alloc),
    )?;
    told(
        rt,
        "four cores in threads",
        seat_threads::four_cores(rt, alloc),
    )
}
