//! The answer of `explain`.

ghost use Rattle.std.specs.Prelude.{◌≡◌, ◌≤◌, IfOk, length};
ghost use Rattle.sched_base.specs.declared.limits.TheConstants.{MAX_POLICY_BYTES};
ghost use Rattle.sched_io.specs.Puts.{Puts};
ghost use Rattle.policy_tree.specs.Meaning.{meaning_of};
ghost use Rattle.obligations.specs.Names.{statement_of};
ghost use Rattle.obligations.specs.Systems.{variables_of};
ghost use Rattle.policy_checker.specs.Outcomes.{outcome_of};
ghost use Rattle.policy_answers.specs.Checks.{IsExplainOf};
ghost use Rattle.policy_answers.specs.Lines.{explain_lines};
ghost use Rattle.policy_answers.specs.Points.{HasValues, explain_line};

use crate::lines::{line_of, put_refusal};
use crate::points::failing_line;
use crate::reading::{CheckMemory, Reading, Refusal, read};
use obligations::ObName;
use policy_checker::{ObAnswer, One, OneFault, Outcome, check_one};
use policy_tree::Policy;
use sched_base::CHECK_BUDGET;
use sched_io::{PutFault, Sink, put_all};
use std::alloc::{AllocError, Global};

/// What is told of one obligation.
#[derive(Drop)]
pub struct Explanation {
    /// Whether it holds.
    pub outcome: Outcome,
    /// The line that says so. Where it fails, with a point at which it does.
    pub line: Vec<u8>,
}

/// What `explain` answers to a text that isn't too long.
#[derive(Drop)]
pub enum ExplainAnswer {
    /// The obligation was decided or left open, for a reason that was checked.
    Explained(Explanation),
    /// The text isn't judged.
    Unjudged(Refusal),
}

/// The answer to a text within its limit, for the obligation of that name.
pub fn explain_text(alloc: Global, text: &[u8], name: ObName) -> Result<ExplainAnswer, CheckMemory>
    requires { length text.now ≤ MAX_POLICY_BYTES }
    ensures { IfOk result (IsExplainOf text.now name) }
{
    let policy = match read(alloc, text)? {
        Reading::Policy(policy) => policy,
        Reading::Faulty(fault) => return Ok(ExplainAnswer::Unjudged(Refusal::Faulty(fault))),
    };
    match check_one(alloc, &policy, name, CHECK_BUDGET) {
        Ok(one) => Ok(ExplainAnswer::Explained(explained(alloc, &policy, name, &one)?)),
        Err(OneFault::Cases(crowd, _count)) => Ok(ExplainAnswer::Unjudged(Refusal::Crowded(crowd))),
        Err(OneFault::Memory) => Err(CheckMemory::Memory),
    }
}

/// What is told of an obligation with this answer.
fn explained(
    alloc: Global,
    policy: &Policy,
    name: ObName,
    one: &One,
) -> Result<Explanation, AllocError>
    requires vars { one.now.vars ≡ variables_of (meaning_of policy.now) (statement_of name) }
    requires values { HasValues one.now.vars one.now.answer }
    ensures told { IfOk result (λ told. told.outcome ≡ outcome_of one.now.answer) }
    ensures line { IfOk result (λ told. told.line.items ≡ explain_line (meaning_of policy.now) name one.now.answer) }
{
    let outcome = one.answer.outcome();
    let line = match &one.answer {
        ObAnswer::Fails(point) => {
            failing_line(
                alloc,
                policy,
                name.text(),
                one.vars.as_slice(),
                point.vals.as_slice(),
            )?
        }
        ObAnswer::Holds(_) | ObAnswer::Undecided(_) => {
            line_of(name, outcome).as_bytes().to_vec(alloc)?
        }
    };
    Ok(Explanation { outcome, line })
}

impl ExplainAnswer {
    /// Writes the answer, which is one line.
    pub fn put<S: Sink>(&self, out: &mut S) -> Result<(), PutFault>
        ensures { Puts (explain_lines self.now) result (S.shown out.old) (S.shown out.new) }
    {
        match self {
            ExplainAnswer::Explained(told) => put_all(out, told.line.as_slice()),
            ExplainAnswer::Unjudged(refusal) => put_refusal(out, refusal),
        }
    }
}
