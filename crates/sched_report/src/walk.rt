//! One walk over the history, entry by entry.

ghost use Rattle.std.specs.Prelude.{◌≡◌, ◌≤◌, [], IfOk, length};
ghost use Rattle.policy_tree.specs.Meaning.{meaning_of};
ghost use Rattle.policy_eval.specs.Obligations.{MeetsHandlerObligations};
ghost use Rattle.round_model.specs.Fits.{Fits};
ghost use Rattle.round_model.specs.Legal.{Legal};
ghost use Rattle.round_model.specs.Limits.{IsWithinLimits};
ghost use Rattle.sched_report.specs.Code.Walks.{IsTally};

use crate::causes::note_fail;
use crate::memory::ReportMemory;
use crate::openings::note_round;
use crate::rows::{CauseRows, RoundRows};
use crate::stretches::{Flags, note_still};
use policy_tree::Policy;
use round_judge::{Past, step};
use round_model::{Entry, Plan};
use sched_base::MAX_ENTRIES;
use std::alloc::Global;

/// What a history tells, entry by entry.
#[derive(Drop)]
pub(crate) struct Tally {
    pub(crate) rounds: RoundRows,
    pub(crate) still: Flags,
    pub(crate) causes: CauseRows,
}

/// What the history tells.
pub(crate) fn walk(
    alloc: Global,
    policy: &Policy,
    plan: &Plan,
    history: &[Entry],
) -> Result<Tally, ReportMemory>
    requires fits { Fits (meaning_of policy.now) plan.now }
    requires limits { IsWithinLimits plan.now }
    requires handlers { MeetsHandlerObligations (meaning_of policy.now) }
    requires legal { Legal (meaning_of policy.now) plan.now history.now }
    requires few { length history.now ≤ MAX_ENTRIES }
    ensures { IfOk result (IsTally (meaning_of policy.now) plan.now history.now) }
{
    let mut past = Past::new(alloc, plan)?;
    let mut tally = Tally::new(alloc);
    for entry in history {
        note_round(&mut tally.rounds, policy, plan, past.state(), entry)?;
        note_still(&mut tally.still, entry)?;
        note_fail(&mut tally.causes, &past, entry)?;
        step(alloc, policy, plan, &mut past, *entry)?;
    }
    Ok(tally)
}

impl Tally {
    /// Of no entry anything is told.
    fn new(alloc: Global) -> Tally
        ensures { result ≡ record { rounds = []; still = []; causes = [] } }
    {
        Tally {
            rounds: RoundRows::from_vec(Vec::new(alloc)),
            still: Flags::from_vec(Vec::new(alloc)),
            causes: CauseRows::from_vec(Vec::new(alloc)),
        }
    }
}
