//! The worked rows of the model and of the reports, played through the public calls, a line for each. The reports on
//! four of the histories are contracts too.
#![tactic(auto)]

mod batches;
mod bodies;
pub mod bounds;
mod histories;
pub mod machines;
mod reports;
pub mod rows;

use crate::batches::{
    batches_of_threads, batches_of_weights, lists_of_another_length_or_order,
    lists_of_other_threads,
};
use crate::bodies::{
    before_the_first_round, choices_of_the_basic_policy, cores_of_an_entry,
    spreads_of_the_eight_threads, windows_of_reads,
};
use crate::histories::{a_round_with_one_steal, serial_play_of_two_cores};
use crate::reports::{
    a_core_that_waits, a_failed_steal, a_put_that_fails, a_still_stretch, totals_alone,
};
use std::alloc::{AllocError, Global};
use std::io;

fn main(rt: HostRuntime) -> io::Result<()> {
    let alloc = rt.alloc();
    told::<_, AllocError>(
        &rt,
        "spreads of the eight threads",
        Ok(spreads_of_the_eight_threads()),
    )?;
    told(
        &rt,
        "choices of the basic policy",
        choices_of_the_basic_policy(alloc),
    )?;
    told(&rt, "windows of reads", windows_of_reads(alloc))?;
    told::<_, AllocError>(&rt, "cores of an entry", Ok(cores_of_an_entry()))?;
    told(&rt, "before the first round", before_the_first_round(alloc))?;
    told(&rt, "a round with one steal", a_round_with_one_steal(alloc))?;
    told(
        &rt,
        "serial play of two cores",
        serial_play_of_two_cores(alloc),
    )?;
    tell_batches(&rt, alloc)?;
    told(&rt, "a failed steal", a_failed_steal(alloc))?;
    told(&rt, "a still stretch", a_still_stretch(alloc))?;
    told(&rt, "a put that fails", a_put_that_fails(alloc))?;
    told(&rt, "totals alone", totals_alone(alloc))?;
    told(&rt, "a core that waits", a_core_that_waits(alloc))
}

/// The rows of steals of several threads.
fn tell_batches<R: Print>(rt: &R, alloc: Global) -> io::Result<()> {
    told(rt, "batches of threads", batches_of_threads(alloc))?;
    told(rt, "batches of weights", batches_of_weights(alloc))?;
    told(
        rt,
        "lists of another length or order",
        lists_of_another_length_or_order(alloc),
    )?;
    told(rt, "lists of other threads", lists_of_other_threads(alloc))
}

/// Prints whether a row came out as expected.
fn told<R: Print, E: Drop>(rt: &R, name: &str, row: Result<bool, E>) -> io::Result<()> {
    let came = match row {
        Ok(true) => "as expected",
        Ok(false) => "otherwise",
        Err(_) => "without memory",
    };
    println!(rt; "{name}: {came}")
}
