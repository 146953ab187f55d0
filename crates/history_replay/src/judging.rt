//! Reads a trace and a history, and judges the history.

ghost use Rattle.std.specs.Prelude.{◌<◌, ◌≡◌, IfErr, IfOk, length};
ghost use Rattle.policy_tree.specs.Meaning.{meaning_of};
ghost use Rattle.policy_eval.specs.Obligations.{MeetsHandlerObligations};
ghost use Rattle.policy_eval.specs.Resolved.{IsResolved};
ghost use Rattle.history_reasons.specs.Lines.{CanBeTold};
ghost use Rattle.history_replay.specs.Judges.{GivesExplanation, IsJudged, IsJudgeStop, IsTextStop};

use crate::refusal::HistoryRefusal;
use history_judge::{ReplayFault, replay};
use history_reader::{HistoryFault, read_history};
use history_reasons::{Explanation, explain};
use policy_tree::Policy;
use round_model::{History, ModelMemory, Plan};
use std::alloc::Global;
use trace_play::{PlanStop, plan_text};

/// A whole history, and the plan that it is one of.
#[derive(Drop)]
pub struct Judged {
    /// What the trace means under the policy.
    pub plan: Plan,
    /// What the history's text spells.
    pub history: History,
}

/// Why texts weren't found to give a whole history.
#[derive(Clone, Copy)]
pub enum JudgeStop {
    /// They give none.
    Refused(HistoryRefusal),
    /// There was no memory.
    Memory,
}

impl From<PlanStop> for JudgeStop {
    ghost use Rattle.history_replay.specs.Judges.{stop_of_plan};

    ghost from_gives = { λ stop why. why ≡ stop_of_plan stop };

    fn from(stop: PlanStop) -> JudgeStop {
        match stop {
            PlanStop::Broken(fault) => JudgeStop::Refused(HistoryRefusal::Trace(fault)),
            PlanStop::Memory => JudgeStop::Memory,
        }
    }
}

impl From<HistoryFault> for JudgeStop {
    ghost use Rattle.history_replay.specs.Judges.{stop_of_text};

    ghost from_gives = { λ fault why. why ≡ stop_of_text fault };

    fn from(fault: HistoryFault) -> JudgeStop {
        match fault {
            HistoryFault::BadLine(line) => JudgeStop::Refused(HistoryRefusal::BadLine(line)),
            HistoryFault::Memory => JudgeStop::Memory,
        }
    }
}

impl From<ReplayFault> for JudgeStop {
    ghost use Rattle.history_replay.specs.Judges.{stop_of_replay};

    ghost from_gives = { λ fault why. why ≡ stop_of_replay fault };

    fn from(fault: ReplayFault) -> JudgeStop {
        match fault {
            ReplayFault::Illegal(position) => JudgeStop::Refused(HistoryRefusal::Illegal(position)),
            ReplayFault::Short(count) => JudgeStop::Refused(HistoryRefusal::Short(count)),
            ReplayFault::Memory => JudgeStop::Memory,
        }
    }
}

impl From<ModelMemory> for JudgeStop {
    ghost use Rattle.history_replay.specs.declared.judging.JudgeStop.TheVariants as stop;

    ghost from_gives = { λ _ why. why ≡ stop.Memory };

    fn from(_fault: ModelMemory) -> JudgeStop {
        JudgeStop::Memory
    }
}

/// Judges the history that the one text spells, of the plan that the other means under the policy.
pub fn judge_texts(
    alloc: Global,
    policy: &Policy,
    trace: &[u8],
    history: &[u8],
) -> Result<Judged, JudgeStop>
    requires resolved { IsResolved (meaning_of policy.now) }
    requires handlers { MeetsHandlerObligations (meaning_of policy.now) }
    requires small { length trace.now < u32.MAX }
    ensures judged { IfOk result (IsJudged (meaning_of policy.now) trace.now history.now) }
    ensures stop { IfErr result (IsJudgeStop (meaning_of policy.now) trace.now history.now) }
{
    let plan = plan_text(alloc, policy, trace)?;
    let history = read_history(alloc, history, plan.cores)?;
    let _replayed = replay(alloc, policy, &plan, &history)?;
    Ok(Judged { plan, history })
}

/// Explains the history that the one text spells, of the plan that the other means under the policy.
pub fn explain_texts(
    alloc: Global,
    policy: &Policy,
    trace: &[u8],
    history: &[u8],
) -> Result<Explanation, JudgeStop>
    requires resolved { IsResolved (meaning_of policy.now) }
    requires handlers { MeetsHandlerObligations (meaning_of policy.now) }
    requires small { length trace.now < u32.MAX }
    ensures explained { IfOk result (GivesExplanation (meaning_of policy.now) trace.now history.now) }
    ensures told { IfOk result CanBeTold }
    ensures stop { IfErr result (IsTextStop (meaning_of policy.now) trace.now history.now) }
{
    let plan = plan_text(alloc, policy, trace)?;
    let history = read_history(alloc, history, plan.cores)?;
    let explanation = explain(alloc, policy, &plan, &history)?;
    Ok(explanation)
}
