//! The two kinds of report.

ghost use Rattle.std.specs.Prelude.{◌≤◌, IfOk, length};
ghost use Rattle.policy_tree.specs.Meaning.{meaning_of};
ghost use Rattle.policy_eval.specs.Obligations.{MeetsHandlerObligations, MeetsObligations};
ghost use Rattle.round_model.specs.Fits.{Fits};
ghost use Rattle.round_model.specs.Legal.{Legal, Whole};
ghost use Rattle.round_model.specs.Limits.{IsWithinLimits};
ghost use Rattle.sched_report.specs.Reports.{AddsUp, IsPaid, IsReport};
ghost use Rattle.sched_report.specs.RestRows.{RestsInTime};
ghost use Rattle.sched_report.specs.Wastes.{IsWaste};

use crate::explained::explained;
use crate::memory::ReportMemory;
use crate::rows::{FullReport, WasteReport};
use crate::steals::{steals_of_rounds, with_steals};
use crate::telling::tell;
use policy_tree::Policy;
use round_model::{History, Plan};
use sched_base::MAX_ENTRIES;
use std::alloc::Global;

/// The report on a whole history. It takes time in proportion to entries times cores.
pub fn report(
    alloc: Global,
    policy: &Policy,
    plan: &Plan,
    history: &History,
) -> Result<FullReport, ReportMemory>
    requires fits { Fits (meaning_of policy.now) plan.now }
    requires limits { IsWithinLimits plan.now }
    requires meets { MeetsObligations (meaning_of policy.now) }
    requires whole { Whole (meaning_of policy.now) plan.now history.now }
    requires few { length history.now ≤ MAX_ENTRIES }
    ensures is { IfOk result (IsReport (meaning_of policy.now) plan.now history.now) }
    // The spread of each stretch is at least twice the number of its bad rounds.
    ensures paid { IfOk result IsPaid }
    // And at least twice the number of those rounds of it that come before its cores are at rest.
    ensures rests { IfOk result RestsInTime }
    ensures adds_up { IfOk result AddsUp }
{
    let told = tell(alloc, policy, plan, history)?;
    let fails = explained(alloc, told.causes.as_slice())?;
    Ok(FullReport {
        rounds: told.rounds,
        stills: told.stills,
        fails,
        totals: told.totals,
    })
}

/// The report on a legal history of a policy that may waste cores. It takes as long.
pub fn waste(
    alloc: Global,
    policy: &Policy,
    plan: &Plan,
    history: &History,
) -> Result<WasteReport, ReportMemory>
    requires fits { Fits (meaning_of policy.now) plan.now }
    requires limits { IsWithinLimits plan.now }
    requires handlers { MeetsHandlerObligations (meaning_of policy.now) }
    requires legal { Legal (meaning_of policy.now) plan.now history.now }
    requires few { length history.now ≤ MAX_ENTRIES }
    ensures { IfOk result (IsWaste (meaning_of policy.now) plan.now history.now) }
{
    let told = tell(alloc, policy, plan, history)?;
    let counts = steals_of_rounds(alloc, history.as_slice())?;
    let stretches = with_steals(alloc, told.stills.as_slice(), counts.as_slice())?;
    Ok(WasteReport {
        rounds: told.rounds,
        stretches,
        causes: told.causes,
        totals: told.totals,
    })
}
