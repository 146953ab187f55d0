//! The check of who may take the last waiting thread of a core.

ghost use Rattle.std.specs.Prelude.{◌≡◌, ◌↔◌, ℕ, Err, IfOk, IsFalse, Some};
ghost use Rattle.policy_tree.specs.Meaning.{meaning_of};
ghost use Rattle.policy_eval.specs.Obligations.{batch_leaves_last, filter_leaves_last};
ghost use Rattle.policy_eval.specs.Resolved.{IsResolved};
ghost use Rattle.obligations.specs.declared.making.ObligeFault.TheVariants.{Cases};
ghost use Rattle.obligations.specs.declared.names.ObName.{ObName};
ghost use Rattle.obligations.specs.Counts.{first_crowded};
ghost use Rattle.obligations.specs.DifferencePolicies.{ComparesDifferences};
ghost use Rattle.obligations.specs.Names.{ob_names};
ghost use Rattle.policy_checker.specs.Answers.{HasFewLooks, IsAnswer};
ghost use Rattle.policy_checker.specs.LastThreads.{IsOneOf};
ghost use Rattle.policy_checker.specs.Verdicts.{is_left};

use crate::deciding::{Reached, answer_to};
use crate::one::{One, OneFault};
use obligations::{LastWaiting, Question, last_waiting};
use policy_tree::Policy;
use std::alloc::{AllocError, Global};

/// The answers to both statements on the last waiting thread of a core.
#[derive(Drop)]
pub struct LastOnes {
    /// Whether the filter lets only an idle core take from a victim with at most two threads.
    pub filter: One,
    /// Whether a batch goes on to such a victim only where the thief has one thread at most.
    pub batch: One,
}

/// Decides the systems of both statements, as `check_policy` does those of the obligations. The cases of all
/// obligations are counted.
pub fn check_last(alloc: Global, policy: &Policy, budget: u64) -> Result<LastOnes, OneFault>
    requires { IsResolved (meaning_of policy.now) }
    ensures crowded { (name : ObName) (count : ℕ) → (result ≡ Err (Cases name count)) ↔
        (first_crowded (meaning_of policy.now) ob_names ≡ Some (name, count)) }
    ensures filter { IfOk result (λ ones. IsOneOf (meaning_of policy.now) budget filter_leaves_last ones.filter) }
    ensures batch { IfOk result (λ ones. IsOneOf (meaning_of policy.now) budget batch_leaves_last ones.batch) }
    ensures decided { ComparesDifferences (meaning_of policy.now) →
        IfOk result (λ ones. IsFalse (is_left ones.filter.answer) × IsFalse (is_left ones.batch.answer)) }
{
    match last_waiting(alloc, policy) {
        Ok(last) => match both_of(alloc, last, budget) {
            Ok(ones) => Ok(ones),
            Err(_unmade) => Err(OneFault::Memory),
        },
        Err(fault) => Err(fault),
    }
}

/// The answers to both.
fn both_of(alloc: Global, last: LastWaiting, budget: u64) -> Result<LastOnes, AllocError>
    ensures vars { IfOk result (λ ones.
        (ones.filter.vars ≡ last.filter.vars) × (ones.batch.vars ≡ last.batch.vars)) }
    ensures answers { IfOk result (λ ones. IsAnswer budget last.filter.systems ones.filter.answer
        × IsAnswer budget last.batch.systems ones.batch.answer) }
    ensures looks { IfOk result (λ ones. HasFewLooks budget last.filter.systems ones.filter.looks
        × HasFewLooks budget last.batch.systems ones.batch.looks) }
{
    let filter = one_of(alloc, last.filter, budget)?;
    let batch = one_of(alloc, last.batch, budget)?;
    Ok(LastOnes { filter, batch })
}

/// The answer to one.
fn one_of(alloc: Global, question: Question, budget: u64) -> Result<One, AllocError>
    ensures vars { IfOk result (λ one. one.vars ≡ question.vars) }
    ensures answer { IfOk result (λ one. IsAnswer budget question.systems one.answer) }
    ensures looks { IfOk result (λ one. HasFewLooks budget question.systems one.looks) }
{
    let Reached { answer, looks } = answer_to(alloc, question.systems.as_slice(), budget)?;
    Ok(One {
        vars: question.vars,
        answer,
        looks,
    })
}
