//! The check of one obligation.

ghost use Rattle.std.specs.Prelude.{◌≡◌, ◌↔◌, ℕ, Err, IfOk, IsFalse, Some};
ghost use Rattle.policy_tree.specs.Meaning.{meaning_of};
ghost use Rattle.policy_eval.specs.Resolved.{IsResolved};
ghost use Rattle.obligations.specs.declared.making.ObligeFault.TheVariants.{Cases};
ghost use Rattle.obligations.specs.Counts.{first_crowded};
ghost use Rattle.obligations.specs.DifferencePolicies.{ComparesDifferences};
ghost use Rattle.obligations.specs.Names.{ob_names, statement_of};
ghost use Rattle.obligations.specs.Systems.{systems_of, variables_of};
ghost use Rattle.policy_checker.specs.Answers.{HasFewLooks, IsAnswer};
ghost use Rattle.policy_checker.specs.Verdicts.{is_left};

use crate::answer::ObAnswer;
use crate::deciding::{Reached, answer_to};
use obligations::{ObName, ObligeFault, VarList, oblige_one};
use policy_tree::Policy;
use std::alloc::Global;

/// Why an obligation has no answer: some obligation of the policy has too many cases, or there was no memory.
pub type OneFault = ObligeFault;

/// The answer to one obligation.
#[derive(Drop)]
pub struct One {
    /// The obligation's variables by their numbers, in the order of a point's values.
    pub vars: VarList,
    /// What was found out.
    pub answer: ObAnswer,
    /// How many boxes were looked at for it.
    pub looks: u64,
}

/// Decides the systems of one obligation, as `check_policy` does. The cases of all obligations are counted.
pub fn check_one(alloc: Global, policy: &Policy, ob: ObName, budget: u64) -> Result<One, OneFault>
    requires { IsResolved (meaning_of policy.now) }
    ensures crowded { (name : ObName) (count : ℕ) → (result ≡ Err (Cases name count)) ↔
        (first_crowded (meaning_of policy.now) ob_names ≡ Some (name, count)) }
    ensures vars { IfOk result (λ one. one.vars ≡ variables_of (meaning_of policy.now) (statement_of ob)) }
    ensures answer { IfOk result (λ one.
        IsAnswer budget (systems_of (meaning_of policy.now) (statement_of ob)) one.answer) }
    ensures decided { ComparesDifferences (meaning_of policy.now) →
        IfOk result (λ one. IsFalse (is_left one.answer)) }
    ensures looks { IfOk result (λ one.
        HasFewLooks budget (systems_of (meaning_of policy.now) (statement_of ob)) one.looks) }
{
    match oblige_one(alloc, policy, ob) {
        Ok(obligation) => match answer_to(alloc, obligation.systems.as_slice(), budget) {
            Ok(Reached { answer, looks }) => Ok(One {
                vars: obligation.vars,
                answer,
                looks,
            }),
            Err(_unmade) => Err(OneFault::Memory),
        },
        Err(fault) => Err(fault),
    }
}
