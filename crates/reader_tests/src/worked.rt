//! Histories that a person worked out, each with its text.

use crate::entries::{enter, fail, pass, round, steal, wake, work};
use crate::histories::{is_cut_short, is_written};
use case_tables::told;
use round_model::Did;
use std::alloc::{AllocError, Global};
use std::io;

/// Prints of each history whether it is written as its text.
pub(crate) fn tell_histories<R: Print>(rt: &R, alloc: Global) -> io::Result<()> {
    told(
        rt,
        "no entries",
        is_written(alloc, &[], b"history 2 cores 2\n", 2)?,
    )?;
    told(rt, "one core and two units", one_core_and_two_units(alloc)?)?;
    told(
        rt,
        "a steal that fails for stale reads",
        a_stale_read(alloc)?,
    )?;
    told(
        rt,
        "a thread that blocks and wakes",
        a_block_and_a_wake(alloc)?,
    )?;
    told(
        rt,
        "two cores and a put that fails",
        two_cores_and_a_put_that_fails(alloc)?,
    )?;
    told(rt, "greatest numbers", greatest_numbers(alloc)?)
}

fn one_core_and_two_units(alloc: Global) -> Result<bool, AllocError> {
    let entries = [
        round(1),
        enter(1, 0, 0, &[]),
        work(0, Did::Kept(1)),
        pass(0, &[3]),
        round(2),
        work(0, Did::Ended(1)),
        pass(0, &[6]),
    ];
    let text =
        "history 2 cores 1\nround 1\nenter 1 0 0\nwork 0 1 keep\npass 0 : 2\nround 2\nwork 0 1 end\npass 0 : 1\n";
    is_written(alloc, &entries, text.as_bytes(), 1)
}

fn a_stale_read(alloc: Global) -> Result<bool, AllocError> {
    let entries = [
        round(1),
        enter(1, 0, 0, &[]),
        enter(2, 0, 0, &[]),
        work(0, Did::Kept(1)),
        pass(0, &[4, 1, 1]),
        work(1, Did::Nothing),
        work(2, Did::Nothing),
        steal(1, 0, &[2], &[5, 6, 1]),
        fail(2, 0, &[5, 6, 7]),
    ];
    let text =
        "history 2 cores 3\nround 1\nenter 1 0 0\nenter 2 0 0\nwork 0 1 keep\npass 0 : 3 0 0\nwork 1 -\n\
        work 2 -\nsteal 1 0 2 : 4 5 0\nfail 2 0 : 4 5 6\n";
    is_written(alloc, &entries, text.as_bytes(), 3)
}

fn a_block_and_a_wake(alloc: Global) -> Result<bool, AllocError> {
    let entries = [
        round(1),
        enter(1, 0, 0, &[1, 1]),
        enter(2, 0, 1, &[2, 1]),
        work(0, Did::Blocked(1)),
        pass(0, &[4, 3]),
        work(1, Did::Queued(2)),
        pass(1, &[5, 6]),
        round(2),
        wake(1, 0, 0, &[8, 8]),
        work(0, Did::Ended(1)),
        pass(0, &[10, 8]),
        work(1, Did::Queued(2)),
        pass(1, &[11, 12]),
    ];
    let text =
        "history 2 cores 2\nround 1\nenter 1 0 0 : 0 0\nenter 2 0 1 : 1 0\nwork 0 1 block\npass 0 : 3 2\n\
        work 1 2 queue\npass 1 : 4 5\nround 2\nwake 1 0 0 : 0 0\nwork 0 1 end\npass 0 : 2 0\n\
        work 1 2 queue\npass 1 : 3 4\n";
    is_written(alloc, &entries, text.as_bytes(), 2)
}

fn two_cores_and_a_put_that_fails(alloc: Global) -> Result<bool, AllocError> {
    let entries = [
        round(1),
        enter(1, 0, 0, &[]),
        enter(2, 0, 0, &[]),
        work(0, Did::Kept(1)),
        pass(0, &[4, 1]),
        work(1, Did::Nothing),
        steal(1, 0, &[2], &[5, 6]),
    ];
    let text =
        "history 2 cores 2\nround 1\nenter 1 0 0\nenter 2 0 0\nwork 0 1 keep\npass 0 : 3 0\nwork 1 -\n\
        steal 1 0 2 : 4 5\n";
    let whole = is_written(alloc, &entries, text.as_bytes(), 2)?;
    let cut_short = is_cut_short(alloc, &entries, b"history 2 cores 2\nround 1\n", 2)?;
    Ok(whole && cut_short)
}

fn greatest_numbers(alloc: Global) -> Result<bool, AllocError> {
    let entries = [
        round(4096),
        enter(1023, 63, 63, &[65536; 64]),
        steal(63, 63, &[1023; 8], &[65536; 64]),
        work(63, Did::Blocked(1023)),
    ];
    let mut text = String::from_str(alloc, "history 2 cores 64\nround 4096\n")?;
    push_reads(&mut text, "enter 1023 63 63 :")?;
    push_reads(
        &mut text,
        "steal 63 63 1023 1023 1023 1023 1023 1023 1023 1023 :",
    )?;
    text.push_str("work 63 1023 block\n")?;
    is_written(alloc, &entries, text.as_bytes(), 64)
}

/// A line with the greatest position of each of 64 cores, behind one entry.
fn push_reads(text: &mut String, front: &str) -> Result<(), AllocError> {
    text.push_str(front)?;
    for _core in 0..64 {
        text.push_str(" 65535")?;
    }
    text.push_str("\n")
}
