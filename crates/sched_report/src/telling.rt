//! What both kinds of report tell of a history.

ghost use Rattle.std.specs.Prelude.{◌≤◌, IfOk, length};
ghost use Rattle.policy_tree.specs.Meaning.{meaning_of};
ghost use Rattle.policy_eval.specs.Obligations.{MeetsHandlerObligations};
ghost use Rattle.round_model.specs.Fits.{Fits};
ghost use Rattle.round_model.specs.Legal.{Legal};
ghost use Rattle.round_model.specs.Limits.{IsWithinLimits};
ghost use Rattle.sched_report.specs.Code.Tellings.{IsTold};

use crate::memory::ReportMemory;
use crate::rows::{CauseRows, RoundRows, StillRows, Totals};
use crate::stretches::stretches_of;
use crate::totals::totals_of;
use crate::walk::walk;
use policy_tree::Policy;
use round_model::{History, Plan};
use sched_base::MAX_ENTRIES;
use std::alloc::Global;

/// What is told of a legal history.
#[derive(Drop)]
pub(crate) struct Told {
    pub(crate) rounds: RoundRows,
    pub(crate) stills: StillRows,
    pub(crate) causes: CauseRows,
    pub(crate) totals: Totals,
}

/// What is told of the history.
pub(crate) fn tell(
    alloc: Global,
    policy: &Policy,
    plan: &Plan,
    history: &History,
) -> Result<Told, ReportMemory>
    requires fits { Fits (meaning_of policy.now) plan.now }
    requires limits { IsWithinLimits plan.now }
    requires handlers { MeetsHandlerObligations (meaning_of policy.now) }
    requires legal { Legal (meaning_of policy.now) plan.now history.now }
    requires few { length history.now ≤ MAX_ENTRIES }
    ensures { IfOk result (IsTold (meaning_of policy.now) plan.now history.now) }
{
    let entries = history.as_slice();
    let tally = walk(alloc, policy, plan, entries)?;
    let stills = stretches_of(alloc, tally.rounds.as_slice(), tally.still.as_slice())?;
    let totals = totals_of(entries, tally.rounds.as_slice());
    Ok(Told {
        rounds: tally.rounds,
        stills,
        causes: tally.causes,
        totals,
    })
}
