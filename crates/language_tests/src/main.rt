//! Plays the tables of `data/` over the reader, the printer and the names of policies. It prints how many cases of each
//! part came out as expected, and every one that didn't. A policy that is built without a text is compared with that
//! of its text. The last line shows how a check that fails is told.
#![tactic(auto)]

mod answers;
mod built;
mod leveling;
mod printing;
mod reading_again;
mod resolving;
mod shown;
mod tables;

use crate::built::fair_is_as_spelled;
use crate::tables::play_tables;
use case_tables::told;
use std::io;

fn main(rt: HostRuntime) -> io::Result<()> {
    let alloc = rt.alloc();
    play_tables(&rt, alloc)?;
    told(
        &rt,
        "fair, built as its text spells it",
        fair_is_as_spelled(alloc)?,
    )?;
    told(&rt, "what isn't so is told so", false)
}
