//! A round of two cores, entry by entry and by serial play.

use history_reader::{HistoryFault, read_history};
use model_tests::builders::basic_policy;
use model_tests::plans::two_cores;
use model_tests::plays::play_of_two;
use model_tests::steps::legal_length_of_two;
use round_model::{Entry, History, ModelMemory};
use sched_base::Stolen;
use serial_steps::Played;
use std::alloc::Global;

/// How many entries the round has with its steal.
const ENTRIES: u32 = 7;

/// The round of two cores whose core 1 takes the current thread of core 0.
const TAKES_THE_CURRENT: &[u8] =
    b"round 1\nenter 1 0 0 :\nenter 2 0 0 :\nwork 0 1 keep\npass 0 : 4 1\nwork 1 -\nsteal 1 0 1 : 5 6\n";

/// The same round, whose core 1 takes the thread that waits.
const TAKES_THE_WAITING: &[u8] =
    b"round 1\nenter 1 0 0 :\nenter 2 0 0 :\nwork 0 1 keep\npass 0 : 4 1\nwork 1 -\nsteal 1 0 2 : 5 6\n";

/// The same round, whose core 1 takes both threads.
const TAKES_BOTH: &[u8] =
    b"round 1\nenter 1 0 0 :\nenter 2 0 0 :\nwork 0 1 keep\npass 0 : 4 1\nwork 1 -\nsteal 1 0 2 1 : 5 6\n";

/// The same round, whose core 1 makes its attempt twice.
const TAKES_IT_TWICE: &[u8] =
    b"round 1\nenter 1 0 0 :\nenter 2 0 0 :\nwork 0 1 keep\npass 0 : 4 1\nwork 1 -\nsteal 1 0 2 : 5 6\n\
    steal 1 0 2 : 5 6\n";

/// The current thread isn't taken, the other one is, alone, and there is one attempt a round.
pub(crate) fn a_round_with_one_steal(alloc: Global) -> Result<bool, ModelMemory> {
    Ok(
        legal_in(alloc, TAKES_THE_CURRENT)? == Some(ENTRIES - 1)
            && legal_in(alloc, TAKES_THE_WAITING)? == Some(ENTRIES)
            && legal_in(alloc, TAKES_BOTH)? == Some(ENTRIES - 1)
            && legal_in(alloc, TAKES_IT_TWICE)? == Some(ENTRIES),
    )
}

/// How many entries of the history are legal one after another, `None` where the text is none of a history.
fn legal_in(alloc: Global, text: &[u8]) -> Result<Option<u32>, ModelMemory> {
    let history = match read_history(alloc, text, 2) {
        Ok(history) => history,
        Err(HistoryFault::Memory) => return Err(ModelMemory::Memory),
        Err(HistoryFault::BadLine(_)) => return Ok(None),
    };
    let policy = basic_policy(alloc)?;
    let plan = two_cores(alloc)?;
    Ok(Some(legal_length_of_two(alloc, &policy, &plan, history.as_slice())?))
}

/// Serial play has the same round.
pub(crate) fn serial_play_of_two_cores(alloc: Global) -> Result<bool, ModelMemory> {
    let policy = basic_policy(alloc)?;
    let plan = two_cores(alloc)?;
    match play_of_two(alloc, &policy, &plan)? {
        Played::Whole(history) => Ok(has_one_steal(&history)),
        Played::Full(_) => Ok(false),
    }
}

/// Whether the history is the round with one steal.
fn has_one_steal(history: &History) -> bool {
    if history.len() != ENTRIES {
        return false;
    }
    let attempt = history.get(4);
    let last = history.get(ENTRIES - 1);
    history.get(0).is_round() && attempt.is_attempt() && attempt.acts(0) && takes_the_other(last)
}

/// Whether core 1 takes thread 2 of core 0, and no other.
fn takes_the_other(entry: &Entry) -> bool {
    match entry {
        Entry::Steal {
            by: 1,
            from: 0,
            threads,
            ..
        } => threads.is(Stolen::of(2)),
        _ => false,
    }
}
