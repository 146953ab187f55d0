//! The answer of `bound`: what bounds the bad rounds of a still stretch.

ghost use Rattle.std.specs.Prelude.{◌≡◌, ◌≤◌, ◌++◌, ◌∷◌, [], IfOk, None, codes, length};
ghost use Rattle.sched_base.specs.declared.limits.TheConstants.{CHECK_BUDGET, MAX_POLICY_BYTES};
ghost use Rattle.sched_io.specs.Puts.{Puts};
ghost use Rattle.policy_tree.specs.Meaning.{meaning_of};
ghost use Rattle.policy_eval.specs.Obligations.{batch_leaves_last, filter_leaves_last};
ghost use Rattle.policy_eval.specs.Resolved.{IsResolved};
ghost use Rattle.obligations.specs.Counts.{first_crowded};
ghost use Rattle.obligations.specs.Names.{ob_names};
ghost use Rattle.policy_checker.specs.LastThreads.{IsOneOf};
ghost use Rattle.policy_checker.specs.Outcomes.{outcome_of};
ghost use Rattle.policy_answers.specs.Bounds.{IsBoundOf, IsToldOfLast, bound_line, bound_lines, is_of_filter, last_line};
ghost use Rattle.policy_answers.specs.Lines.{outcome_word};
ghost use Rattle.policy_answers.specs.Points.{HasValues};

use crate::answer::{CheckAnswer, check_text};
use crate::lines::outcome_word;
use crate::points::failing_line;
use crate::reading::CheckMemory;
use policy_checker::{LastOnes, ObAnswer, One, OneFault, Outcome, Verdict, check_last};
use policy_tree::Policy;
use sched_base::CHECK_BUDGET;
use sched_io::{PutFault, Sink, put_all};
use std::alloc::{AllocError, Global};

/// What is told of the last waiting thread of a core.
#[derive(Drop)]
pub struct Bounding {
    /// Whether it is left to idle cores.
    pub outcome: Outcome,
    /// The line that says so. Where it isn't, with a point at which a busy core takes it.
    pub line: Vec<u8>,
}

/// What `bound` answers to a text that isn't too long.
#[derive(Drop)]
pub enum BoundAnswer {
    /// The policy is accepted, and this is told of the last waiting thread.
    Bounded(Bounding),
    /// The policy isn't accepted. This is what `check` answers.
    Unbounded(CheckAnswer),
}

/// The answer to a text within its limit.
pub fn bound_text(alloc: Global, text: &[u8]) -> Result<BoundAnswer, CheckMemory>
    requires { length text.now ≤ MAX_POLICY_BYTES }
    ensures { IfOk result (IsBoundOf text.now) }
{
    match check_text(alloc, text)? {
        CheckAnswer::Judged(Verdict::Accepted(accepted)) => {
            let bounding = bounding_of(alloc, accepted.policy())?;
            Ok(BoundAnswer::Bounded(bounding))
        }
        CheckAnswer::Judged(verdict) => Ok(BoundAnswer::Unbounded(CheckAnswer::Judged(verdict))),
        CheckAnswer::Unjudged(why) => Ok(BoundAnswer::Unbounded(CheckAnswer::Unjudged(why))),
    }
}

/// What is told of a policy of which no obligation has too many cases.
fn bounding_of(alloc: Global, policy: &Policy) -> Result<Bounding, CheckMemory>
    requires resolved { IsResolved (meaning_of policy.now) }
    requires few { first_crowded (meaning_of policy.now) ob_names ≡ None }
    ensures { IfOk result (IsToldOfLast (meaning_of policy.now)) }
{
    match check_last(alloc, policy, CHECK_BUDGET) {
        Ok(ones) => Ok(told_of(alloc, policy, &ones)?),
        Err(OneFault::Cases(_name, _count)) => unreachable!(),
        Err(OneFault::Memory) => Err(CheckMemory::Memory),
    }
}

/// What is told where these are the answers to both statements.
fn told_of(alloc: Global, policy: &Policy, ones: &LastOnes) -> Result<Bounding, AllocError>
    requires resolved { IsResolved (meaning_of policy.now) }
    requires filter { IsOneOf (meaning_of policy.now) CHECK_BUDGET filter_leaves_last ones.now.filter }
    requires batch { IsOneOf (meaning_of policy.now) CHECK_BUDGET batch_leaves_last ones.now.batch }
    ensures { IfOk result (IsToldOfLast (meaning_of policy.now)) }
{
    let filter = ones.filter.answer.outcome();
    let batch = ones.batch.answer.outcome();
    if is_of_filter(filter, batch) {
        told_by(alloc, policy, &ones.filter)
    } else {
        told_by(alloc, policy, &ones.batch)
    }
}

/// Whether what is told is the answer on the filter.
fn is_of_filter(filter: Outcome, batch: Outcome) -> bool
    ensures { result ≡ is_of_filter filter batch }
{
    match filter {
        Outcome::Fails => true,
        Outcome::Holds => false,
        Outcome::Undecided => !matches!(batch, Outcome::Fails),
    }
}

/// What is told by that answer.
fn told_by(alloc: Global, policy: &Policy, one: &One) -> Result<Bounding, AllocError>
    requires { HasValues one.now.vars one.now.answer }
    ensures told { IfOk result (λ told. told.outcome ≡ outcome_of one.now.answer) }
    ensures line { IfOk result (λ told. told.line.items ≡
        last_line (meaning_of policy.now) one.now.vars one.now.answer) }
{
    let outcome = one.answer.outcome();
    let line = match &one.answer {
        ObAnswer::Fails(point) => {
            failing_line(
                alloc,
                policy,
                "last-waiting",
                one.vars.as_slice(),
                point.vals.as_slice(),
            )?
        }
        ObAnswer::Holds(_) | ObAnswer::Undecided(_) => known_line(alloc, outcome)?,
    };
    Ok(Bounding { outcome, line })
}

/// The line of an answer without a point.
fn known_line(alloc: Global, outcome: Outcome) -> Result<Vec<u8>, AllocError>
    ensures { IfOk result (λ line. line.items ≡ codes "last-waiting" ++ outcome_word outcome) }
{
    let mut line = Vec::from_slice(alloc, b"last-waiting")?;
    line.extend_from_slice(outcome_word(outcome))?;
    Ok(line)
}

impl BoundAnswer {
    /// Writes the answer, a line at a time.
    pub fn put<S: Sink>(&self, out: &mut S) -> Result<(), PutFault>
        ensures { Puts (bound_lines self.now) result (S.shown out.old) (S.shown out.new) }
    {
        match self {
            BoundAnswer::Bounded(bounding) => put_bounding(out, bounding),
            BoundAnswer::Unbounded(checked) => checked.put(out),
        }
    }
}

/// Writes the line on the last waiting thread, and the one on the bound.
fn put_bounding<S: Sink>(out: &mut S, bounding: &Bounding) -> Result<(), PutFault>
    ensures { Puts (bounding.now.line.items ∷ bound_line bounding.now.outcome ∷ []) result
        (S.shown out.old) (S.shown out.new) }
{
    put_all(out, bounding.line.as_slice())?;
    put_all(out, bound_line(bounding.outcome))?;
    Ok(())
}

/// The line on the bound.
fn bound_line(outcome: Outcome) -> &'static [u8]
    ensures { result.now ≡ bound_line outcome }
{
    match outcome {
        Outcome::Holds => b"bound idle-cores\n",
        Outcome::Fails | Outcome::Undecided => b"bound half-spread\n",
    }
}
