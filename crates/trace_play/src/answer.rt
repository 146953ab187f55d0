//! What a trace comes to, and how it is written.

ghost use Rattle.sched_io.specs.Puts.{Puts};
ghost use Rattle.trace_play.specs.Plays.{IsShown, lines_of};

use crate::cores::PlayedCores;
use crate::fault::LineFault;
use history_merge::write_merged;
use sched_io::{PutFault, Sink, put_all};

/// What serial play of a trace's text comes to.
#[derive(Drop)]
pub enum PlayAnswer {
    /// The text is no trace, or its trace doesn't fit the policy: it has this fault.
    Broken(LineFault),
    /// The trace was played by these cores.
    Played(PlayedCores),
}

impl PlayAnswer {
    /// Writes the answer, a line at a time. It takes no memory: a history is written as the cores' logs are walked.
    pub fn put<S: Sink>(&self, out: &mut S) -> Result<(), PutFault>
        requires { IsShown self.now }
        ensures { Puts (lines_of self.now) result (S.shown out.old) (S.shown out.new) }
    {
        match self {
            PlayAnswer::Broken(fault) => put_all(out, fault.to_line().as_bytes()),
            PlayAnswer::Played(cores) => match write_merged(cores.closed(), out) {
                Ok(_count) => Ok(()),
                Err(fault) => Err(fault),
            },
        }
    }
}
