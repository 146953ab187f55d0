//! Small plans of two threads on two cores: each enters in every place, and runs every program, of a table.

use std::alloc::{AllocError, Global};

/// Where a thread enters.
const PLACES: [&str; 3] = ["core 0 round 1", "core 1 round 1", "core 0 round 2"];

/// What a thread runs.
const PROGRAMS: [&str; 4] = [
    "forever",
    "run 1",
    "run 1 block 1 run 1",
    "run 1 block 2 run 1",
];

/// So many plans there are.
pub(crate) const PLANS: usize = 144;

/// The trace of the plan of that number.
pub(crate) fn trace_of(alloc: Global, number: usize) -> Result<String, AllocError> {
    let (first, second) = (number / 12 % 12, number % 12);
    let (place, program) = (PLACES[first / 4], PROGRAMS[first % 4]);
    let (other_place, other_program) = (PLACES[second / 4], PROGRAMS[second % 4]);
    format!(in alloc;
        "cores 2\nrounds 4\nthread 1 {place} {program}\nthread 2 {other_place} {other_program}\n"
    )
}
