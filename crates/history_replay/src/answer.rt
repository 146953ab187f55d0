//! What a history's text comes to, and how it is written.

ghost use Rattle.std.specs.Prelude.{◌<◌, ◌≤◌, ◌≡◌, IfOk, length};
ghost use Rattle.sched_base.specs.declared.limits.TheConstants.{MAX_ENTRIES};
ghost use Rattle.policy_tree.specs.Meaning.{meaning_of};
ghost use Rattle.policy_eval.specs.Obligations.{MeetsHandlerObligations, MeetsObligations};
ghost use Rattle.policy_eval.specs.Resolved.{IsResolved};
ghost use Rattle.sched_history.specs.Ranges.{CanBePrinted};
ghost use Rattle.sched_history.specs.Spelling.{lines_of_history};
ghost use Rattle.sched_io.specs.Puts.{Puts};
ghost use Rattle.round_model.specs.Fits.{Fits};
ghost use Rattle.round_model.specs.Legal.{Whole};
ghost use Rattle.round_model.specs.Limits.{IsWithinLimits};
ghost use Rattle.history_replay.specs.Judges.{IsMigrationOf, IsReplayOf, IsReportOf, IsWhyOf, TellsOf};
ghost use Rattle.history_replay.specs.Lines.{IsShown, lines_of};

use crate::explanations::{put_explanation, whole_line};
use crate::judging::{JudgeStop, Judged, explain_texts, judge_texts};
use crate::refusal::HistoryRefusal;
use history_reasons::Explanation;
use policy_tree::Policy;
use sched_history::put_history;
use sched_io::{PutFault, Sink, put_all};
use sched_report::{FullReport, ReportMemory, print_report, report};
use std::alloc::Global;
use trace_play::PlayMemory;

/// What a history's text comes to.
#[derive(Drop)]
pub enum HistoryAnswer {
    /// It spells a whole history, which has so many entries.
    Whole(u32),
    /// It spells a whole history, of which that is told.
    Reported(FullReport),
    /// It spells this whole history, of which the text of the second format is asked.
    Migrated(Judged),
    /// It spells a history of which that is the explanation.
    Explained(Explanation),
    /// The texts give no history, or no whole one where that is asked for.
    Refused(HistoryRefusal),
}

impl HistoryAnswer {
    /// Writes the answer, a line at a time.
    pub fn put<S: Sink>(&self, out: &mut S) -> Result<(), PutFault>
        requires { IsShown self.now }
        ensures { Puts (lines_of self.now) result (S.shown out.old) (S.shown out.new) }
    {
        match self {
            HistoryAnswer::Whole(count) => put_all(out, whole_line(*count).as_bytes()),
            HistoryAnswer::Reported(report) => print_report(out, report),
            HistoryAnswer::Migrated(judged) => put_judged(out, judged),
            HistoryAnswer::Explained(explanation) => put_explanation(out, explanation),
            HistoryAnswer::Refused(refusal) => put_all(out, refusal.to_line().as_bytes()),
        }
    }
}

/// Writes the text of the second format of a history that was judged, for the cores of its plan.
fn put_judged<S: Sink>(out: &mut S, judged: &Judged) -> Result<(), PutFault>
    requires { CanBePrinted judged.now.plan.cores judged.now.history }
    ensures { Puts (lines_of_history judged.now.plan.cores judged.now.history) result
        (S.shown out.old) (S.shown out.new) }
{
    put_history(out, judged.history.as_slice(), judged.plan.cores)
}

/// Replays the history of the one text, of the plan that the other means under the policy.
pub fn replay_texts(
    alloc: Global,
    policy: &Policy,
    trace: &[u8],
    history: &[u8],
) -> Result<HistoryAnswer, PlayMemory>
    requires resolved { IsResolved (meaning_of policy.now) }
    requires handlers { MeetsHandlerObligations (meaning_of policy.now) }
    requires small { length trace.now < u32.MAX }
    ensures replay { IfOk result (IsReplayOf (meaning_of policy.now) trace.now history.now) }
    ensures shown { IfOk result IsShown }
{
    match judge_texts(alloc, policy, trace, history) {
        Ok(judged) => Ok(HistoryAnswer::Whole(judged.history.len())),
        Err(JudgeStop::Refused(refusal)) => Ok(HistoryAnswer::Refused(refusal)),
        Err(JudgeStop::Memory) => Err(PlayMemory::Memory),
    }
}

/// Reports of the history of the one text, of the plan that the other means under the policy.
pub fn report_texts(
    alloc: Global,
    policy: &Policy,
    trace: &[u8],
    history: &[u8],
) -> Result<HistoryAnswer, PlayMemory>
    requires resolved { IsResolved (meaning_of policy.now) }
    requires meets { MeetsObligations (meaning_of policy.now) }
    requires small { length trace.now < u32.MAX }
    ensures report { IfOk result (IsReportOf (meaning_of policy.now) trace.now history.now) }
    ensures shown { IfOk result IsShown }
{
    match judge_texts(alloc, policy, trace, history) {
        Ok(judged) => reported(alloc, policy, &judged),
        Err(JudgeStop::Refused(refusal)) => Ok(HistoryAnswer::Refused(refusal)),
        Err(JudgeStop::Memory) => Err(PlayMemory::Memory),
    }
}

/// The history of the one text, of the plan that the other means under the policy, to be written in the second format.
pub fn migrate_texts(
    alloc: Global,
    policy: &Policy,
    trace: &[u8],
    history: &[u8],
) -> Result<HistoryAnswer, PlayMemory>
    requires resolved { IsResolved (meaning_of policy.now) }
    requires handlers { MeetsHandlerObligations (meaning_of policy.now) }
    requires small { length trace.now < u32.MAX }
    ensures migration { IfOk result (IsMigrationOf (meaning_of policy.now) trace.now history.now) }
    ensures shown { IfOk result IsShown }
{
    match judge_texts(alloc, policy, trace, history) {
        Ok(judged) => Ok(HistoryAnswer::Migrated(judged)),
        Err(JudgeStop::Refused(refusal)) => Ok(HistoryAnswer::Refused(refusal)),
        Err(JudgeStop::Memory) => Err(PlayMemory::Memory),
    }
}

/// Says why the history of the one text isn't whole, of the plan that the other means under the policy, and what may
/// come in it.
pub fn why_texts(
    alloc: Global,
    policy: &Policy,
    trace: &[u8],
    history: &[u8],
) -> Result<HistoryAnswer, PlayMemory>
    requires resolved { IsResolved (meaning_of policy.now) }
    requires handlers { MeetsHandlerObligations (meaning_of policy.now) }
    requires small { length trace.now < u32.MAX }
    ensures why { IfOk result (IsWhyOf (meaning_of policy.now) trace.now history.now) }
    ensures shown { IfOk result IsShown }
{
    match explain_texts(alloc, policy, trace, history) {
        Ok(explanation) => Ok(HistoryAnswer::Explained(explanation)),
        Err(JudgeStop::Refused(refusal)) => Ok(HistoryAnswer::Refused(refusal)),
        Err(JudgeStop::Memory) => Err(PlayMemory::Memory),
    }
}

/// What is told of a whole history.
fn reported(alloc: Global, policy: &Policy, judged: &Judged) -> Result<HistoryAnswer, PlayMemory>
    requires fits { Fits (meaning_of policy.now) judged.now.plan }
    requires limits { IsWithinLimits judged.now.plan }
    requires meets { MeetsObligations (meaning_of policy.now) }
    requires whole { Whole (meaning_of policy.now) judged.now.plan judged.now.history }
    requires few { length judged.now.history ≤ MAX_ENTRIES }
    ensures tells { IfOk result (TellsOf (meaning_of policy.now) judged.now.plan judged.now.history) }
    ensures shown { IfOk result IsShown }
{
    match report(alloc, policy, &judged.plan, &judged.history) {
        Ok(told) => Ok(HistoryAnswer::Reported(told)),
        Err(ReportMemory::Memory) => Err(PlayMemory::Memory),
    }
}
