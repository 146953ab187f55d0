//! Two cores that meet between their units and their looks.

ghost use Rattle.std.specs.Prelude.{◌<◌, true};

use crate::calls::{call_past, sink};
use crate::one_steal;
use history_reader::read_history;
use round_model::Entry;
use sched_base::Reads;
use sched_io::Gate;
use std::alloc::{AllocError, Global};
use std::sync::{OnceLock, Wait};
use std::thread::Threads;

/// How often a core looks for the other one.
const LOOKS: u32 = 2_000_000_000;

/// A place at which two cores wait for each other.
#[derive(Drop)]
struct Meeting {
    /// Of each core, whether it came.
    came: [OnceLock<bool>; 2],
    /// Of each core, whether it saw the other one.
    met: [OnceLock<bool>; 2],
}

impl Meeting {
    /// Nobody came yet.
    fn new() -> Meeting {
        Meeting {
            came: [OnceLock::new(), OnceLock::new()],
            met: [OnceLock::new(), OnceLock::new()],
        }
    }

    /// Whether both cores saw each other.
    fn have_met(&self) -> bool {
        self.met.iter().all(|met| met.get().is_some())
    }

    /// Looks for the core until it came, but not for ever.
    fn sees(&self, core: usize) -> bool
        requires { core < 2 }
    {
        for _ in 0..LOOKS {
            if self.came[core].get().is_some() {
                return true;
            }
        }
        false
    }

    /// The core comes, and waits for the other one.
    fn meet<R: Wait>(&self, rt: &R, core: u32) {
        let (own, other) = if core == 0 { (0, 1) } else { (1, 0) };
        let _first = self.came[own].set(rt, true);
        if self.sees(other) {
            let _first = self.met[own].set(rt, true);
        }
    }
}

/// A gate at which two cores wait for each other, in the first round and in the others.
#[derive(Drop)]
struct Meetings {
    first: Meeting,
    later: Meeting,
}

impl Meetings {
    /// Nobody came yet.
    fn new() -> Meetings {
        Meetings {
            first: Meeting::new(),
            later: Meeting::new(),
        }
    }

    /// Whether both cores saw each other in the first round, and in another where there is one.
    fn have_met(&self, rounds: usize) -> bool {
        self.first.have_met() && (rounds < 2 || self.later.have_met())
    }
}

impl Gate for Meetings {
    ghost admits = { λ _ _ _. true };

    ghost passed = { λ _ _ _. Unit {0} };

    fn pass<R: Wait>(&self, rt: &R, core: u32, round: u32) {
        if round <= 1 {
            self.first.meet(rt, core);
        } else {
            self.later.meet(rt, core);
        }
    }
}

/// Whether the reads of two cores come behind these positions.
fn see_past(reads: &Reads, works: (Option<usize>, Option<usize>)) -> bool {
    match works {
        (Some(first), Some(second)) if reads.len() == 2 => {
            reads.get(0) as usize > first && reads.get(1) as usize > second
        }
        _ => false,
    }
}

/// Whether each attempt stands behind the units of both cores in its round, and saw both as they were behind them.
fn attempts_see_both(history: &[Entry]) -> bool {
    let mut works = (None, None);
    for (at, entry) in history.iter().enumerate() {
        if entry.is_round() {
            works = (None, None);
        } else if entry.is_work() && entry.acting_core() == Some(0) {
            works.0 = Some(at);
        } else if entry.is_work() {
            works.1 = Some(at);
        } else if entry.is_attempt() && !see_past(&entry.reads(), works) {
            return false;
        }
    }
    true
}

/// Whether `run` of one steal gives a history in which both cores looked behind both units. The serial history has an
/// attempt before the second unit.
pub(crate) fn two_cores_meet<R: Threads + Wait + Sync>(
    rt: &R,
    alloc: Global,
) -> Result<bool, AllocError> {
    meet(rt, alloc, &["run", "p", "t"], one_steal::TRACE, 1, 7)
}

/// Whether `crew` with two workers does so in both of two rounds, each of 20 times.
pub(crate) fn two_workers_meet<R: Threads + Wait + Sync>(
    rt: &R,
    alloc: Global,
) -> Result<bool, AllocError> {
    for _ in 0..20 {
        let words = ["crew", "p", "t", "2"];
        if !meet(rt, alloc, &words, one_steal::TWO_ROUNDS, 2, 12)? {
            return Ok(false);
        }
    }
    Ok(true)
}

/// Whether the command on this trace gives a history of so many entries, in which both cores looked behind both units
/// in each of so many rounds.
fn meet<R: Threads + Wait + Sync>(
    rt: &R,
    alloc: Global,
    words: &[&str],
    trace: &str,
    rounds: usize,
    entries: u32,
) -> Result<bool, AllocError> {
    let gate = Meetings::new();
    let words = one_steal::words(alloc, words)?;
    let files = one_steal::files(alloc, trace)?;
    let sink = sink(alloc, None, Vec::new(alloc))?;
    let answer = call_past(rt, alloc, &words, files, sink, &gate)?;
    let Ok(history) = read_history(alloc, answer.bytes.as_slice(), 2) else {
        return Ok(false);
    };
    Ok(
        answer.status == 0
            && gate.have_met(rounds)
            && history.len() == entries
            && attempts_see_both(history.as_slice()),
    )
}
