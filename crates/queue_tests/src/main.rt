//! Plays a queue through its public calls, and prints of each check whether the queue gave what it should: tasks of
//! equal keys as they came, under a preferring key the preferred first, and under three orders the same tasks as a
//! plain list.
#![tactic(auto)]

mod drawn;
mod equals;
mod orders;
mod plain;
mod preferred;
mod turns;

use crate::equals::equals_come_as_they_came;
use crate::orders::{four_keys, heaviest, heavy_before_light, least_used, no_key};
use crate::preferred::heavy_come_first;
use crate::turns::gives_the_same;
use case_tables::told;
use std::alloc::Global;
use std::io;

fn main(rt: HostRuntime) -> io::Result<()> {
    let alloc = rt.alloc();
    told(&rt, "tasks of equal keys", of_equal_keys(alloc))?;
    told(&rt, "tasks of a preferring key", of_a_preferring_key(alloc))?;
    told(&rt, "a queue by arrival", by_arrival(alloc))?;
    told(&rt, "a queue by one key", by_one_key(alloc))?;
    told(&rt, "a queue by four keys", by_four_keys(alloc))
}

/// Whether tasks of equal keys come out as they came.
fn of_equal_keys(alloc: Global) -> bool {
    let Ok(elect) = least_used(alloc) else {
        return false;
    };
    equals_come_as_they_came(alloc, &elect)
}

/// Whether preferred tasks come out first.
fn of_a_preferring_key(alloc: Global) -> bool {
    let Ok(elect) = heavy_before_light(alloc) else {
        return false;
    };
    heavy_come_first(alloc, &elect)
}

/// Whether a queue without keys gives the same as a plain list.
fn by_arrival(alloc: Global) -> bool {
    let Ok(steal) = heaviest(alloc) else {
        return false;
    };
    gives_the_same(alloc, &no_key(alloc), &steal)
}

/// Whether a queue that elects by one key gives the same as a plain list.
fn by_one_key(alloc: Global) -> bool {
    let Ok(elect) = least_used(alloc) else {
        return false;
    };
    gives_the_same(alloc, &elect, &no_key(alloc))
}

/// Whether a queue that elects by four keys gives the same as a plain list.
fn by_four_keys(alloc: Global) -> bool {
    let Ok(elect) = four_keys(alloc) else {
        return false;
    };
    gives_the_same(alloc, &elect, &elect)
}
