//! What the slots of a table have.

ghost use Rattle.std.specs.Prelude.{◌≡◌, ◌<◌, ◌++◌, [], ◌∷◌, IfOk, length};

use core_state::{CoreState, Logged};
use round_model::Entry;
use sched_base::Pos;
use std::alloc::{AllocError, Global};
use std::marker::Model;

/// The log of the rounds that began, with their positions.
#[derive(Drop)]
pub struct RoundLog {
    entries: Vec<Logged>,
}

impl Model for RoundLog {
    ghost use Rattle.std.specs.Prelude.{vec_capacity};
    ghost use Rattle.core_table.specs.Logs.{RoundLogView};

    ghost Value = { RoundLogView };

    ghost view = { λ l. record { entries = l.entries.items; room = vec_capacity l.entries } };
}

impl RoundLog {
    /// An empty log that has room for so many entries.
    pub(crate) fn with_room(alloc: Global, room: u32) -> Result<RoundLog, AllocError>
        ensures { IfOk result (λ l. l ≡ record { entries = []; room = room }) }
    {
        Ok(RoundLog {
            entries: Vec::with_capacity(alloc, room as usize)?,
        })
    }

    /// The entry comes to the log's end.
    pub(crate) fn log(&mut self, at: Pos, entry: Entry)
        requires { length self.old.entries < self.old.room }
        ensures { self.new ≡ record self.old { entries = self.old.entries ++ record { at = at; entry = entry } ∷ [] } }
    {
        self.entries.push_reserved(Logged { at, entry });
    }

    /// The entries as a vector. It takes no memory.
    pub(crate) fn into_entries(self) -> Vec<Logged>
        ensures { result.items ≡ self.entries }
    {
        let RoundLog { entries } = self;
        entries
    }
}

/// What a slot has.
#[derive(Drop)]
pub enum Slot {
    /// A core that is at home.
    Core(CoreState),
    /// The log of the rounds, which is at home.
    Rounds(RoundLog),
    /// What belongs here is in the hands of a seat.
    Out,
}
