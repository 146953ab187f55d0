//! How far apart the loads of a few cores are, in a history whose threads have weight 1 and no end.

use round_model::{Entry, History};
use sched_base::CoreId;

/// Whether each steal brings the loads of four cores nearer by at least two for each thread that it moves.
pub(crate) fn steals_narrow(history: &History) -> bool {
    let mut loads = [0; 4];
    for entry in history.as_slice() {
        if !narrows(&mut loads, entry) {
            return false;
        }
    }
    true
}

/// Notes what the entry makes of the loads. Whether they are near enough then, if it is a steal.
fn narrows(loads: &mut [u64; 4], entry: &Entry) -> bool {
    match entry {
        Entry::Enter { at, .. } => {
            come(loads, *at, 1);
            true
        }
        Entry::Steal {
            by,
            from,
            threads,
            ..
        } => {
            let moves = u64::from(threads.len());
            let before = spread(loads);
            leave(loads, *from, moves);
            come(loads, *by, moves);
            spread(loads).saturating_add(2 * moves) <= before
        }
        _ => true,
    }
}

/// So many threads come to the core.
fn come(loads: &mut [u64; 4], core: CoreId, count: u64) {
    if let Some(load) = loads.get_mut(core as usize) {
        *load = load.saturating_add(count);
    }
}

/// So many threads leave the core.
fn leave(loads: &mut [u64; 4], core: CoreId, count: u64) {
    if let Some(load) = loads.get_mut(core as usize) {
        *load = load.saturating_sub(count);
    }
}

/// The sum of the distances between the loads, each pair of cores once.
fn spread(loads: &[u64; 4]) -> u64 {
    let mut twice = 0_u64;
    for load in loads {
        twice = twice.saturating_add(distances(loads, *load));
    }
    twice / 2
}

/// The sum of the distances of one load to each.
fn distances(loads: &[u64; 4], load: u64) -> u64 {
    let mut sum = 0_u64;
    for other in loads {
        sum = sum.saturating_add(load.abs_diff(*other));
    }
    sum
}
