//! What a trace comes to that is simulated, and how it is written.

ghost use Rattle.std.specs.Prelude.{◌≡◌};
ghost use Rattle.sched_io.specs.Puts.{Puts};
ghost use Rattle.trace_simulation.specs.Lines.{lines_of, report_of};
ghost use Rattle.trace_simulation.specs.Simulations.{IsShown};

use history_merge::write_merged;
use sched_io::{PutFault, Sink, put_all};
use sched_report::{WasteReport, print_waste};
use trace_play::{LineFault, PlayedCores};

/// What a trace comes to that is simulated.
#[derive(Drop)]
pub enum SimulationAnswer {
    /// The text is no trace, or its trace doesn't fit the policy: it has this fault.
    Broken(LineFault),
    /// The trace was played by these cores.
    Played(PlayedCores),
    /// That is what the history wasted that was played.
    Wasted(PlayedWaste),
}

/// What a history wasted that was played.
#[derive(Drop)]
pub enum PlayedWaste {
    /// The history is whole.
    Whole(WasteReport),
    /// The history stops before the first round that might not fit the plan's limit.
    Full(WasteReport),
}

impl SimulationAnswer {
    /// Writes the answer, a line at a time.
    pub fn put<S: Sink>(&self, out: &mut S) -> Result<(), PutFault>
        requires { IsShown self.now }
        ensures { Puts (lines_of self.now) result (S.shown out.old) (S.shown out.new) }
    {
        match self {
            SimulationAnswer::Broken(fault) => put_all(out, fault.to_line().as_bytes()),
            SimulationAnswer::Played(cores) => match write_merged(cores.closed(), out) {
                Ok(_count) => Ok(()),
                Err(fault) => Err(fault),
            },
            SimulationAnswer::Wasted(wasted) => print_waste(out, report_of(wasted)),
        }
    }
}

/// The report on the history that was played, however its play ended.
fn report_of(wasted: &PlayedWaste) -> &WasteReport
    ensures { result.now ≡ report_of wasted.now }
{
    match wasted {
        PlayedWaste::Whole(report) | PlayedWaste::Full(report) => report,
    }
}
