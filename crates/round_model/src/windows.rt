//! The window of a read: from the round's beginning to the entry itself.

ghost use Rattle.std.specs.Prelude.{◌≡◌, ◌↔◌, IsTrue};
ghost use Rattle.round_model.specs.Reads.{ReadsFit, round_start as start_of_round};

use crate::entry::History;
use sched_base::{Pos, Reads};

/// The position just after the last Round of the history, and 0 before the first.
pub fn round_start(history: &History) -> Pos
    ensures { result ≡ start_of_round history.now }
{
    let mut start = 0;
    for at in 0..history.len() {
        if history.get(at).is_round() {
            start = at + 1;
        }
    }
    start
}

/// Whether there is one read for each core, each from the round's start on and no later than the entry.
pub fn reads_fit(reads: &Reads, cores: u32, start: Pos, position: Pos) -> bool
    ensures { IsTrue result ↔ ReadsFit cores start position reads.now }
{
    if reads.len() != cores {
        return false;
    }
    for at in 0..reads.len() {
        let read = reads.get(at);
        if read < start || position < read {
            return false;
        }
    }
    true
}
