//! Whether two histories are the same.

use round_model::{Did, Entry, History};
use sched_base::{CoreId, Reads, Stolen, ThreadId};

/// Whether both have the same entries.
pub(crate) fn are_same(one: &History, other: &History) -> bool {
    let (ones, others) = (one.as_slice(), other.as_slice());
    if ones.len() != others.len() {
        return false;
    }
    for (entry, twin) in ones.iter().zip(others) {
        if !is_same(entry, twin) || !read_the_same(entry.reads(), twin.reads()) {
            return false;
        }
    }
    true
}

/// Whether both entries are the same apart from what they read.
fn is_same(entry: &Entry, twin: &Entry) -> bool {
    match entry {
        Entry::Round { number } => is_round(twin, *number),
        Entry::Enter { thread, by, at, .. } => lets_in(twin, *thread, *by, *at),
        Entry::Wake { thread, by, at, .. } => wakes(twin, *thread, *by, *at),
        Entry::Work { by, did } => works(twin, *by, *did),
        Entry::Steal {
            by,
            from,
            threads,
            ..
        } => steals(twin, *by, *from, *threads),
        Entry::Fail { by, from, .. } => fails(twin, *by, *from),
        Entry::Pass { by, .. } => passes(twin, *by),
    }
}

/// Whether the entry begins the round of that number.
fn is_round(entry: &Entry, round: u32) -> bool {
    match entry {
        Entry::Round { number } => *number == round,
        _ => false,
    }
}

/// Whether the entry lets that thread in, by one core at another.
fn lets_in(entry: &Entry, id: ThreadId, actor: CoreId, place: CoreId) -> bool {
    match entry {
        Entry::Enter { thread, by, at, .. } => *thread == id && *by == actor && *at == place,
        _ => false,
    }
}

/// Whether that thread wakes, by one core at another.
fn wakes(entry: &Entry, id: ThreadId, actor: CoreId, place: CoreId) -> bool {
    match entry {
        Entry::Wake { thread, by, at, .. } => *thread == id && *by == actor && *at == place,
        _ => false,
    }
}

/// Whether the entry is that core's unit, of which the same is told.
fn works(entry: &Entry, actor: CoreId, told: Did) -> bool {
    match entry {
        Entry::Work { by, did } => *by == actor && *did == told,
        _ => false,
    }
}

/// Whether the entry takes these threads, by one core from another.
fn steals(entry: &Entry, actor: CoreId, victim: CoreId, stolen: Stolen) -> bool {
    match entry {
        Entry::Steal {
            by,
            from,
            threads,
            ..
        } => *by == actor && *from == victim && threads.is(stolen),
        _ => false,
    }
}

/// Whether one core takes nothing of the other in the entry.
fn fails(entry: &Entry, actor: CoreId, victim: CoreId) -> bool {
    match entry {
        Entry::Fail { by, from, .. } => *by == actor && *from == victim,
        _ => false,
    }
}

/// Whether that core finds none to take from.
fn passes(entry: &Entry, actor: CoreId) -> bool {
    match entry {
        Entry::Pass { by, .. } => *by == actor,
        _ => false,
    }
}

/// Whether both are the same positions.
fn read_the_same(reads: Reads, others: Reads) -> bool {
    if reads.len() != others.len() {
        return false;
    }
    for at in 0..reads.len() {
        if reads.get(at) != others.get(at) {
            return false;
        }
    }
    true
}
