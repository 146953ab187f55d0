//! How what was told behind the threads goes on, and what is counted of it.

ghost use Rattle.std.specs.Prelude.{◌≡◌};
ghost use Rattle.turn_steps.specs.Code.Reaching.{ended_by as ended_in_unit, ended_in, entries_in};
ghost use Rattle.turn_steps.specs.Code.Reaching.{has_acted_in, has_worked_in, may_wake_in};
ghost use Rattle.turn_steps.specs.Reaches.{look_in, with_attempt as and_attempt, with_look as and_look};

use crate::reached::Reached;
use round_model::Did;
use sched_base::ThreadId;
use select_phase::Look;

impl Reached {
    /// Whether threads may still wake: it wasn't told that none is due.
    pub(crate) fn may_wake(self) -> Option<()>
        ensures { result ≡ may_wake_in self }
    {
        match self {
            Reached::Threads => Some(()),
            _ => None,
        }
    }

    /// Whether the unit was run.
    pub(crate) fn has_worked(self) -> bool
        ensures { result ≡ has_worked_in self }
    {
        match self {
            Reached::Threads | Reached::NothingDue => false,
            Reached::Worked(_) | Reached::Looked(..) | Reached::Acted(..) => true,
        }
    }

    /// Whether the attempt was made.
    pub(crate) fn has_acted(self) -> bool
        ensures { result ≡ has_acted_in self }
    {
        match self {
            Reached::Acted(..) => true,
            _ => false,
        }
    }

    /// The look, where one was told.
    pub(crate) fn look(self) -> Option<Look>
        ensures { result ≡ look_in self }
    {
        match self {
            Reached::Looked(_, look) | Reached::Acted(_, look) => Some(look),
            _ => None,
        }
    }

    /// With the look behind the unit.
    pub(crate) fn with_look(self, look: Look) -> Reached
        ensures { result ≡ and_look look self }
    {
        match self {
            Reached::Worked(did) => Reached::Looked(did, look),
            other => other,
        }
    }

    /// With the attempt behind the look.
    pub(crate) fn with_attempt(self) -> Reached
        ensures { result ≡ and_attempt self }
    {
        match self {
            Reached::Looked(did, look) => Reached::Acted(did, look),
            other => other,
        }
    }

    /// How many entries were told.
    pub(crate) fn entries(self) -> u32
        ensures { result ≡ entries_in self }
    {
        match self {
            Reached::Threads | Reached::NothingDue => 0,
            Reached::Worked(_) | Reached::Looked(..) => 1,
            Reached::Acted(..) => 2,
        }
    }

    /// The thread that ended in the unit, if one did.
    pub(crate) fn ended(self) -> Option<ThreadId>
        ensures { result ≡ ended_in self }
    {
        match self {
            Reached::Threads | Reached::NothingDue => None,
            Reached::Worked(did) | Reached::Looked(did, _) | Reached::Acted(did, _) => {
                ended_by(did)
            }
        }
    }
}

/// The thread that ended by this word, if one did.
fn ended_by(did: Did) -> Option<ThreadId>
    ensures { result ≡ ended_in_unit did }
{
    match did {
        Did::Ended(thread) => Some(thread),
        _ => None,
    }
}
