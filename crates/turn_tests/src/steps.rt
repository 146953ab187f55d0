//! What the core does next in its turn, as serial play has it.

ghost use Rattle.std.specs.Prelude.{◌≡◌, IfSome};
ghost use Rattle.round_judge.specs.Readable.{ReadIn};
ghost use Rattle.serial_steps.specs.Turns.{ActsBy, MayAdd};
ghost use Rattle.turn_tests.specs.Memory.{IsReady, core_of, history_of, meaning_in_memory, past_of, plan_of};
ghost use Rattle.turn_tests.specs.Steps.{IsNextStep, did_in, woken_in};

use crate::memory_calls::MemoryCalls;
use crate::reads::fresh_reads;
use round_model::{Did, Entry};
use sched_base::Reads;
use serial_play::next_step;
use serial_steps::NextStep;

impl MemoryCalls<'_> {
    /// The step that serial play takes for the core, where it keeps that look or none.
    pub(crate) fn next(&self, look: Option<Reads>) -> NextStep
        requires ready { IsReady self.now }
        requires look { IfSome look (ReadIn (plan_of self.now) (past_of self.now)) }
        ensures step { IsNextStep self.now look result }
        ensures legal { MayAdd (meaning_in_memory self.now) (plan_of self.now) (history_of self.now) result }
        ensures acts { ActsBy (core_of self.now) result }
    {
        let fresh = fresh_reads(self.plan, &self.history);
        next_step(self.policy, self.plan, &self.past, self.core, &fresh, look)
    }
}

/// The entry by which a thread wakes, if the step adds one.
pub(crate) fn woken(step: NextStep) -> Option<Entry>
    ensures { result ≡ woken_in step }
{
    match step {
        NextStep::Adds(entry) => match entry {
            Entry::Wake { .. } => Some(entry),
            _ => None,
        },
        _ => None,
    }
}

/// What became of the thread that ran, if the step is a unit.
pub(crate) fn did(step: NextStep) -> Option<Did>
    ensures { result ≡ did_in step }
{
    match step {
        NextStep::Adds(Entry::Work { did, .. }) => Some(did),
        _ => None,
    }
}
