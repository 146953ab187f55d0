//! Plays turns by the calls of a core over a history in memory, as at the shared table, whole and step by step, and
//! prints whether they come to what a person worked out.
#![tactic(auto)]

mod adding;
mod agreeing;
mod asked;
mod beside;
mod calling;
mod finding;
mod making;
mod memory_calls;
mod orders;
mod outcomes;
mod playing;
mod reads;
mod shares;
mod single_steps;
mod small_plans;
mod steps;
mod texts;
mod turns;
mod turnstile;

use crate::agreeing::on_small_plans;
use crate::finding::told;
use crate::turns::{in_batches, under_basic, under_fair};
use std::{fs, io};

fn main(rt: HostRuntime) -> io::Result<()> {
    let alloc = rt.alloc();
    under_basic(&rt, alloc)?;
    under_fair(&rt, alloc)?;
    in_batches(&rt, alloc)?;
    on_small_plans(&rt, alloc)?;
    let trace = fs::read_to_string(&rt, "orders.trace")?;
    told(
        &rt,
        "turns told in every order",
        orders::of_trace(alloc, trace.as_str()),
    )?;
    told(&rt, "cores of workers", shares::of_all())
}
