//! Which cores each of a few workers plays.

ghost use Rattle.std.specs.Prelude.{◌≤◌};

use crate::finding::{Finding, all_hold};
use sched_base::MAX_CORES;
use turn_steps::first_core;

/// Each core has exactly one worker, of so many as there may be cores.
pub(crate) fn of_all() -> Option<Finding> {
    for cores in 0..=MAX_CORES as u32 {
        if !of_cores(cores) {
            return Some(all_hold(&[("each core has exactly one worker", false)]));
        }
    }
    Some(Finding::Expected)
}

/// Whether that is so of so many cores.
fn of_cores(cores: u32) -> bool {
    for workers in 1..=MAX_CORES as u32 {
        if !is_shared(cores, workers) {
            return false;
        }
    }
    true
}

/// Whether it is so of so many cores by so many workers.
fn is_shared(cores: u32, workers: u32) -> bool
    requires { 1 ≤ workers }
{
    let mut times = [0; MAX_CORES];
    for worker in 0..workers {
        let first = first_core(cores, workers, worker);
        let end = first_core(cores, workers, worker + 1);
        if end > cores {
            return false;
        }
        count_all(&mut times, first, end);
    }
    let (shared, rest) = times.split_at(MAX_CORES.min(cores as usize));
    shared.iter().all(|times| *times == 1) && rest.iter().all(|times| *times == 0)
}

/// Counts each core from the first up to but without the end.
fn count_all(times: &mut [u32; MAX_CORES], first: u32, end: u32) {
    for core in first..end {
        if let Some(counted) = times.get_mut(core as usize) {
            *counted = counted.saturating_add(1);
        }
    }
}
