//! The check of a policy.

ghost use Rattle.std.specs.Prelude.{◌≡◌, ◌↔◌, ℕ, Err, IfErr, IfOk, None, Some, length, vec_len};
ghost use Rattle.std.specs.List.{AllZip};
ghost use Rattle.policy_tree.specs.Meaning.{meaning_of};
ghost use Rattle.policy_eval.specs.Resolved.{IsResolved};
ghost use Rattle.obligations.specs.declared.making.ObligeFault.TheVariants as oblige_fault;
ghost use Rattle.obligations.specs.declared.names.ObName.{ObName};
ghost use Rattle.obligations.specs.Counts.{first_crowded};
ghost use Rattle.obligations.specs.DifferencePolicies.{ComparesDifferences};
ghost use Rattle.obligations.specs.Names.{ob_names};
ghost use Rattle.policy_checker.specs.Verdicts.{AreAnswers, IsAnswerTo, IsDecided, IsVerdict, policy_of, returned_by};
ghost use Rattle.policy_checker.specs.Verdicts.{some_fails, some_is_left};
ghost use Rattle.policy_checker.specs.declared.verdict.CheckFault.TheVariants.{Cases};

use crate::accepted::AcceptedPolicy;
use crate::answer::{Answered, ObAnswers};
use crate::deciding::{Reached, answer_to};
use crate::verdict::{CheckFault, Verdict};
use lists::Items;
use obligations::{Obligation, ObligeFault, oblige};
use policy_tree::Policy;
use std::alloc::{AllocError, Global};

/// The verdict on a resolved policy: each of its obligations is decided, systems of differences always, and others
/// within the budget.
///
/// A system that isn't one of differences is left undecided only where it has more points than the budget and bounded
/// elimination doesn't refute it. Under a budget of 0 each such system is left undecided. So a policy that counts
/// threads and compares constants with variables and differences of two alone is decided under every budget.
pub fn check_policy(alloc: Global, policy: Policy, budget: u64) -> Result<Verdict, CheckFault>
    requires { IsResolved (meaning_of policy) }
    ensures crowded { (name : ObName) (count : ℕ) → (result ≡ Err (Cases name count policy)) ↔
        (first_crowded (meaning_of policy) ob_names ≡ Some (name, count)) }
    ensures verdict { IfOk result (IsVerdict (meaning_of policy) budget) }
    ensures decided { ComparesDifferences (meaning_of policy) → IfOk result IsDecided }
    ensures keeps { IfOk result (λ verdict. policy_of verdict ≡ policy) }
    ensures returned { IfErr result (λ fault. returned_by fault ≡ policy) }
{
    match answers_of(alloc, &policy, budget) {
        Ok(answers) => Ok(verdict_of(answers, policy)),
        Err(ObligeFault::Cases(name, count)) => Err(CheckFault::Cases(name, count, policy)),
        Err(ObligeFault::Memory) => Err(CheckFault::Memory(policy)),
    }
}

/// The answers to all obligations.
fn answers_of(alloc: Global, policy: &Policy, budget: u64) -> Result<ObAnswers, ObligeFault>
    requires { IsResolved (meaning_of policy.now) }
    ensures crowded { (name : ObName) (count : ℕ) → (result ≡ Err (oblige_fault.Cases name count)) ↔
        (first_crowded (meaning_of policy.now) ob_names ≡ Some (name, count)) }
    ensures answers { IfOk result (AreAnswers (meaning_of policy.now) budget) }
{
    match oblige(alloc, policy) {
        Ok(obligations) => match answers_to(alloc, obligations.as_slice(), budget) {
            Ok(answers) => Ok(Items::from_vec(answers)),
            Err(_unmade) => Err(ObligeFault::Memory),
        },
        Err(fault) => Err(fault),
    }
}

/// The answers to these obligations.
fn answers_to(
    alloc: Global,
    obligations: &[Obligation],
    budget: u64,
) -> Result<Vec<Answered>, AllocError>
    ensures answers { IfOk result (λ answers. AllZip (IsAnswerTo budget) obligations.now answers.items) }
    ensures count { IfOk result (λ answers. vec_len answers ≡ length obligations.now) }
{
    let mut answers = Vec::new(alloc);
    for obligation in obligations {
        let Reached { answer, looks } = answer_to(alloc, obligation.systems.as_slice(), budget)?;
        answers.push(Answered {
            name: obligation.name,
            answer,
            looks,
        })?;
    }
    Ok(answers)
}

/// The verdict that these answers give.
fn verdict_of(answers: ObAnswers, policy: Policy) -> Verdict
    requires resolved { IsResolved (meaning_of policy) }
    requires answers { (budget : ℕ) × AreAnswers (meaning_of policy) budget answers }
    requires few { first_crowded (meaning_of policy) ob_names ≡ None }
    ensures verdict { (budget : ℕ) → AreAnswers (meaning_of policy) budget answers →
        IsVerdict (meaning_of policy) budget result }
    ensures keeps { policy_of result ≡ policy }
{
    if any_fails(answers.as_slice()) {
        return Verdict::Refused(answers, policy);
    }
    if any_is_left(answers.as_slice()) {
        return Verdict::Undecided(answers, policy);
    }
    Verdict::Accepted(AcceptedPolicy::new(policy, answers))
}

/// Whether some obligation fails.
fn any_fails(answers: &[Answered]) -> bool
    ensures { result ≡ some_fails answers.now }
{
    answers.iter().any(|answered| answered.answer.is_failure())
}

/// Whether it isn't known of some obligation whether it holds.
fn any_is_left(answers: &[Answered]) -> bool
    ensures { result ≡ some_is_left answers.now }
{
    answers.iter().any(|answered| answered.answer.is_left())
}
