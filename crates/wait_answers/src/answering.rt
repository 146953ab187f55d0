//! The answer of `waits`: how long threads wait under a policy.

ghost use Rattle.std.specs.Prelude.{◌≡◌, ◌≤◌, IfOk, length};
ghost use Rattle.sched_base.specs.declared.limits.TheConstants.{MAX_POLICY_BYTES};
ghost use Rattle.sched_io.specs.Puts.{Puts};
ghost use Rattle.policy_tree.specs.Meaning.{meaning_of};
ghost use Rattle.policy_eval.specs.Obligations.{MeetsHandlerObligations};
ghost use Rattle.policy_eval.specs.Resolved.{IsResolved};
ghost use Rattle.wait_answers.specs.Waits.{IsSearched, IsToldOfWaits, IsWaitOf, wait_lines};

use crate::lines::text_of;
use policy_answers::{CheckAnswer, CheckMemory, check_text, put_text};
use policy_checker::Verdict;
use policy_tree::Policy;
use sched_io::{PutFault, Sink};
use starving_plays::{Starving, starving_play};
use std::alloc::Global;
use wait_classes::{WaitClass, wait_class};

/// What is told of waiting.
#[derive(Drop)]
pub struct Waiting {
    /// Which law of waiting applies to the policy.
    pub class: WaitClass,
    /// Where none does, a trace under which a thread waits for ever, if one was found.
    pub starving: Option<Starving>,
    /// What is written: the line that says so, and the trace behind it.
    pub text: Vec<u8>,
}

/// What `waits` answers to a text that isn't too long.
#[derive(Drop)]
pub enum WaitAnswer {
    /// The policy is accepted, and this is told of waiting.
    Waits(Waiting),
    /// The policy isn't accepted. This is what `check` answers.
    Unaccepted(CheckAnswer),
}

/// The answer to a text within its limit.
pub fn waits_text(alloc: Global, text: &[u8]) -> Result<WaitAnswer, CheckMemory>
    requires { length text.now ≤ MAX_POLICY_BYTES }
    ensures { IfOk result (IsWaitOf text.now) }
{
    match check_text(alloc, text)? {
        CheckAnswer::Judged(Verdict::Accepted(accepted)) => {
            Ok(WaitAnswer::Waits(waiting_of(alloc, accepted.policy())?))
        }
        CheckAnswer::Judged(verdict) => Ok(WaitAnswer::Unaccepted(CheckAnswer::Judged(verdict))),
        CheckAnswer::Unjudged(why) => Ok(WaitAnswer::Unaccepted(CheckAnswer::Unjudged(why))),
    }
}

/// What is told of a policy whose handlers are right.
fn waiting_of(alloc: Global, policy: &Policy) -> Result<Waiting, CheckMemory>
    requires resolved { IsResolved (meaning_of policy.now) }
    requires handlers { MeetsHandlerObligations (meaning_of policy.now) }
    ensures { IfOk result (IsToldOfWaits (meaning_of policy.now)) }
{
    let class = wait_class(policy);
    let starving = starving_in(alloc, policy, class)?;
    let text = text_of(alloc, policy, class, &starving)?;
    Ok(Waiting {
        class,
        starving,
        text,
    })
}

/// Where no law applies, a trace under which a thread waits for ever, if one is found.
fn starving_in(
    alloc: Global,
    policy: &Policy,
    class: WaitClass,
) -> Result<Option<Starving>, CheckMemory>
    requires resolved { IsResolved (meaning_of policy.now) }
    requires handlers { MeetsHandlerObligations (meaning_of policy.now) }
    ensures { IfOk result (IsSearched (meaning_of policy.now) class) }
{
    match class {
        WaitClass::Unknown => match starving_play(alloc, policy) {
            Ok(starving) => Ok(starving),
            Err(_memory) => Err(CheckMemory::Memory),
        },
        WaitClass::Queue => Ok(None),
        WaitClass::Slices { .. } | WaitClass::Least { .. } => Ok(None),
    }
}

impl WaitAnswer {
    /// Writes the answer, a line at a time.
    pub fn put<S: Sink>(&self, out: &mut S) -> Result<(), PutFault>
        ensures { Puts (wait_lines self.now) result (S.shown out.old) (S.shown out.new) }
    {
        match self {
            WaitAnswer::Waits(waiting) => put_text(out, waiting.text.as_slice()),
            WaitAnswer::Unaccepted(checked) => checked.put(out),
        }
    }
}
