//! The answer of `check`.

ghost use Rattle.std.specs.Prelude.{◌≤◌, IfOk, length};
ghost use Rattle.sched_base.specs.declared.limits.TheConstants.{MAX_POLICY_BYTES};
ghost use Rattle.sched_io.specs.Puts.{Puts};
ghost use Rattle.policy_answers.specs.Checks.{IsCheckOf};
ghost use Rattle.policy_answers.specs.Lines.{check_lines, verdict_lines};

use crate::lines::{put_answers, put_held, put_refusal};
use crate::reading::{CheckMemory, Reading, Refusal, read};
use policy_checker::{CheckFault, Verdict, check_policy};
use sched_base::CHECK_BUDGET;
use sched_io::{PutFault, Sink};
use std::alloc::Global;

/// What `check` answers to a text that isn't too long.
#[derive(Drop)]
pub enum CheckAnswer {
    /// Every obligation of the policy was decided or left open, for a reason that was checked.
    Judged(Verdict),
    /// The text isn't judged.
    Unjudged(Refusal),
}

/// The answer to a text within its limit.
pub fn check_text(alloc: Global, text: &[u8]) -> Result<CheckAnswer, CheckMemory>
    requires { length text.now ≤ MAX_POLICY_BYTES }
    ensures { IfOk result (IsCheckOf text.now) }
{
    let policy = match read(alloc, text)? {
        Reading::Policy(policy) => policy,
        Reading::Faulty(fault) => return Ok(CheckAnswer::Unjudged(Refusal::Faulty(fault))),
    };
    match check_policy(alloc, policy, CHECK_BUDGET) {
        Ok(verdict) => Ok(CheckAnswer::Judged(verdict)),
        Err(CheckFault::Cases(name, _count, _policy)) => {
            Ok(CheckAnswer::Unjudged(Refusal::Crowded(name)))
        }
        Err(CheckFault::Memory(_policy)) => Err(CheckMemory::Memory),
    }
}

impl CheckAnswer {
    /// Writes the answer, a line at a time.
    pub fn put<S: Sink>(&self, out: &mut S) -> Result<(), PutFault>
        ensures { Puts (check_lines self.now) result (S.shown out.old) (S.shown out.new) }
    {
        match self {
            CheckAnswer::Judged(verdict) => put_verdict(out, verdict),
            CheckAnswer::Unjudged(refusal) => put_refusal(out, refusal),
        }
    }
}

/// Writes the line of each obligation, and the verdict.
fn put_verdict<S: Sink>(out: &mut S, verdict: &Verdict) -> Result<(), PutFault>
    ensures { Puts (verdict_lines verdict.now) result (S.shown out.old) (S.shown out.new) }
{
    match verdict {
        Verdict::Accepted(policy) => put_held(out, policy.policy()),
        Verdict::Refused(answers, policy) => {
            put_answers(out, policy, answers.as_slice(), b"refused\n")
        }
        Verdict::Undecided(answers, policy) => {
            put_answers(out, policy, answers.as_slice(), b"undecided\n")
        }
    }
}
