//! The cores that played a trace.

ghost use Rattle.std.specs.Prelude.{◌≡◌};
ghost use Rattle.trace_play.specs.Plays.{closed_of};

use core_state::Closed;

/// The cores as a play left them. Their logs are those of the history, of which no list is made.
#[derive(Drop)]
pub enum PlayedCores {
    /// The history is whole.
    Whole(Closed),
    /// The history stops before the first round that might not fit the plan's limit.
    Full(Closed),
}

impl PlayedCores {
    /// The cores, however their history ends.
    pub fn closed(&self) -> &Closed
        ensures { result.now ≡ closed_of self.now }
    {
        match self {
            PlayedCores::Whole(closed) | PlayedCores::Full(closed) => closed,
        }
    }
}
