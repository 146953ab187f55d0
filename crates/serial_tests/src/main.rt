//! Plays seeded plans under a policy with a batch, and prints whether plain lists, running cores and the shared table
//! by hand come to the same histories, and the table in threads and by a few workers to whole ones.
#![tactic(auto)]

mod agreeing;
mod agreement;
mod at_table;
mod comparing;
mod count;
mod counting;
mod dice;
mod hand_turns;
mod judging;
mod plans;
mod playing;

use crate::agreeing::of_all;
use crate::agreement::Agreement;
use case_tables::told;
use model_tests::builders::batched_policy;
use std::alloc::Global;
use std::io;
use std::sync::Wait;
use std::thread::Threads;

fn main(rt: HostRuntime) -> io::Result<()> {
    let all = played(&rt, rt.alloc());
    tell_same(&rt, all)?;
    tell_whole(&rt, all)
}

/// Prints whether the same histories are come to, and how their steals go.
fn tell_same<R: Print>(rt: &R, all: Agreement) -> io::Result<()> {
    told(
        rt,
        "plain lists and running cores agree on 500 plans",
        all.by_cores,
    )?;
    told(
        rt,
        "some of their steals move several threads",
        all.in_batches,
    )?;
    told(
        rt,
        "the table by hand agrees with them on 500 plans",
        all.by_hand,
    )
}

/// Prints whether the histories are whole where no two plays need be the same.
fn tell_whole<R: Print>(rt: &R, all: Agreement) -> io::Result<()> {
    told(
        rt,
        "500 plans in threads come to whole histories",
        all.in_threads,
    )?;
    told(
        rt,
        "500 plans by one worker and by two come to whole histories",
        all.by_crews,
    )?;
    told(
        rt,
        "some of their steals fail by one worker",
        all.fails_alone,
    )
}

/// What all plans come to.
fn played<R: Threads + Wait + Sync>(rt: &R, alloc: Global) -> Agreement {
    match batched_policy(alloc, 8) {
        Ok(policy) => of_all(rt, alloc, &policy),
        Err(_) => Agreement::failed(),
    }
}
