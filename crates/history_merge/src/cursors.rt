//! The cursors with which all logs are walked at once.

ghost use Rattle.std.specs.Prelude.{◌≡◌, ◌+◌, ◌<◌, List, slice_get, slice_index, slice_set};
ghost use Rattle.sched_base.specs.declared.limits.TheConstants.{MAX_CORES};
ghost use Rattle.round_model.specs.declared.entry.Entry.{Entry as ModelEntry};
ghost use Rattle.core_state.specs.Logs.{AreLogsOfOne, LogsOf};
ghost use Rattle.core_state.specs.Views.{ClosedView};
ghost use Rattle.history_merge.specs.Code.Moves.{entry_there, lent, moved};

use core_state::{Closed, Logged};
use round_model::Entry;
use sched_base::{CoreId, MAX_CORES, Pos};
use std::marker::Model;

/// Of each log the number of entries that were passed.
#[derive(Drop)]
pub struct Cursors {
    cores: [u32; MAX_CORES],
    rounds: u32,
}

impl Model for Cursors {
    ghost use Rattle.history_merge.specs.Cursors.{CursorsView};

    ghost Value = { CursorsView };

    ghost view = { λ c. record { cores = c.cores; rounds = c.rounds } };
}

impl Cursors {
    ghost use Rattle.history_merge.specs.Cursors.{StandAt};

    /// The cursors where no entry was passed.
    pub fn start() -> Cursors
        ensures { (closed : ClosedView) → StandAt closed 0 result }
    {
        Cursors {
            cores: [0; MAX_CORES],
            rounds: 0,
        }
    }

    /// The history's entry at that position, where the cursors stand, and `None` behind the last one.
    /// The cursors pass the entry.
    pub fn next_entry(&mut self, closed: &Closed, at: Pos) -> Option<Entry>
        requires logs { AreLogsOfOne closed.now }
        requires stand { StandAt closed.now at self.old }
        requires at { at < u32.MAX }
        ensures entry { (history : List ModelEntry) → LogsOf history closed.now → result ≡ slice_get history at }
        ensures stand { StandAt closed.now (at + 1) self.new }
    {
        self.lend_entry(closed, at).copied()
    }

    /// The same, lent by the log in which it stands.
    pub(crate) fn lend_entry<'a>(&mut self, closed: &'a Closed, at: Pos) -> Option<&'a Entry>
        requires logs { AreLogsOfOne closed.now }
        requires stand { StandAt closed.now at self.old }
        requires at { at < u32.MAX }
        ensures entry { (history : List ModelEntry) → LogsOf history closed.now → lent result ≡ slice_get history at }
        ensures stand { StandAt closed.now (at + 1) self.new }
    {
        let mut found = self.next_round(closed.rounds(), at);
        for core in 0..closed.cores() {
            let next = self.next_of(core, closed.core(core).entries(), at);
            found = next.or(found);
        }
        found
    }

    /// The entry where the cursor of the core stands in that log, if its position is that one. The cursor passes it.
    fn next_of<'a>(&mut self, core: CoreId, log: &'a [Logged], at: Pos) -> Option<&'a Entry>
        requires core { core < MAX_CORES }
        requires cursor { slice_index self.old.cores core < u32.MAX }
        ensures entry { lent result ≡ entry_there at (slice_get log.now (slice_index self.old.cores core)) }
        ensures cursor { self.new ≡ record self.old {
          cores = slice_set self.old.cores core (moved (slice_index self.old.cores core) (lent result));
        } }
    {
        let cursor = self.cores[core as usize];
        let entry = entry_at(log, cursor, at);
        self.cores[core as usize] = behind(cursor, entry);
        entry
    }

    /// The same of the log of rounds.
    fn next_round<'a>(&mut self, log: &'a [Logged], at: Pos) -> Option<&'a Entry>
        requires { self.old.rounds < u32.MAX }
        ensures entry { lent result ≡ entry_there at (slice_get log.now self.old.rounds) }
        ensures cursor { self.new ≡ record self.old { rounds = moved self.old.rounds (lent result) } }
    {
        let entry = entry_at(log, self.rounds, at);
        self.rounds = behind(self.rounds, entry);
        entry
    }
}

/// The entry where that cursor stands in the log, if its position is that one.
fn entry_at<'a>(log: &'a [Logged], cursor: u32, at: Pos) -> Option<&'a Entry>
    ensures { lent result ≡ entry_there at (slice_get log.now cursor) }
{
    let next = log.get(cursor as usize)?;
    if next.at == at {
        Some(&next.entry)
    } else {
        None
    }
}

/// Where the cursor stands then: behind the entry, where there is one.
fn behind(cursor: u32, entry: Option<&Entry>) -> u32
    requires { cursor < u32.MAX }
    ensures { result ≡ moved cursor (lent entry.entry) }
{
    match entry {
        Some(_) => cursor + 1,
        None => cursor,
    }
}
