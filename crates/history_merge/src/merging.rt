//! The history, entry after entry.

ghost use Rattle.std.specs.Prelude.{◌≡◌, IfOk, List, length};
ghost use Rattle.round_model.specs.declared.entry.Entry.{Entry as ModelEntry};
ghost use Rattle.core_state.specs.Logs.{AreLogsOfOne, LogsOf, after_last};
ghost use Rattle.history_merge.specs.Merged.{AreLogsOfFew};

use crate::cursors::Cursors;
use crate::memory::HistoryMemory;
use core_state::{Closed, Logged};
use round_model::History;
use std::alloc::Global;

/// The one history of which these are the logs, of fewer than `2^32` entries. Its memory is taken at once.
pub fn merge(alloc: Global, closed: &Closed) -> Result<History, HistoryMemory>
    requires { AreLogsOfFew closed.now }
    ensures { IfOk result (λ history. LogsOf history closed.now) }
{
    let count = entry_count(closed) as u32;
    let mut entries = Vec::with_capacity(alloc, count as usize)?;
    let mut cursors = Cursors::start();
    for at in 0..count {
        let Some(entry) = cursors.next_entry(closed, at) else {
            unreachable!()
        };
        entries.push_reserved(entry);
    }
    Ok(History::from_vec(entries))
}

/// The number of entries of the history of which these are the logs.
pub fn entry_count(closed: &Closed) -> u64
    requires { AreLogsOfOne closed.now }
    ensures { (history : List ModelEntry) → LogsOf history closed.now → result ≡ length history }
{
    let mut count = position_behind(closed.rounds());
    for core in 0..closed.cores() {
        count = count.max(position_behind(closed.core(core).entries()));
    }
    count
}

/// The position behind the last entry of the log, 0 where there is none.
fn position_behind(log: &[Logged]) -> u64
    ensures { result ≡ after_last 0 log.now }
{
    match log {
        [.., last] => u64::from(last.at) + 1,
        [] => 0,
    }
}
