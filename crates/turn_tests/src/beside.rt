//! What a turn asks for, beside the step that serial play takes.

ghost use Rattle.std.specs.Prelude.{◌≡◌};
ghost use Rattle.select_phase.specs.declared.looks.Look.{Look as Seen};
ghost use Rattle.steal_phase.specs.Attempts.{MayAttempt};
ghost use Rattle.turn_steps.specs.declared.asking.Ask.TheVariants as ask;
ghost use Rattle.turn_tests.specs.Memory.{IsReady, view_of};

use crate::memory_calls::MemoryCalls;
use round_model::Entry;
use serial_steps::NextStep;
use turn_steps::Ask;

impl MemoryCalls<'_> {
    /// Whether serial play takes the step that the turn asks for.
    pub(crate) fn takes(&self, asked: &Ask) -> bool
        requires ready { IsReady self.now }
        requires look { (look : Seen) → asked.now ≡ ask.Act look → MayAttempt (view_of self.now) look }
    {
        match asked {
            Ask::Act(look) => is_attempt(&self.next(Some(look.reads))),
            other => is_asked(other, &self.next(None)),
        }
    }
}

/// Whether the step is an attempt.
fn is_attempt(step: &NextStep) -> bool {
    match step {
        NextStep::Adds(entry) => match entry {
            Entry::Steal { .. } | Entry::Fail { .. } | Entry::Pass { .. } => true,
            _ => false,
        },
        NextStep::Looks | NextStep::Over => false,
    }
}

/// Whether this asks for the step, which is no attempt.
fn is_asked(asked: &Ask, step: &NextStep) -> bool {
    match step {
        NextStep::Adds(entry) => asks_for(asked, entry),
        NextStep::Looks => match asked {
            Ask::Look => true,
            _ => false,
        },
        NextStep::Over => match asked {
            Ask::Over => true,
            _ => false,
        },
    }
}

/// Whether this asks for the entry. Where none is due, a turn that asks to wake goes on to its unit.
fn asks_for(asked: &Ask, entry: &Entry) -> bool {
    match asked {
        Ask::Arrive(next) => match entry {
            Entry::Enter { thread, .. } => thread == next,
            _ => false,
        },
        Ask::Wake => match entry {
            Entry::Wake { .. } | Entry::Work { .. } => true,
            _ => false,
        },
        Ask::Work => match entry {
            Entry::Work { .. } => true,
            _ => false,
        },
        Ask::Look | Ask::Act(_) | Ask::Over => false,
    }
}
