//! Accepted policies.

ghost use Rattle.std.specs.Prelude.{◌≡◌, None, Some, map, slice_get};
ghost use Rattle.linear_cert.specs.Right.{cert_tree};
ghost use Rattle.policy_tree.specs.Meaning.{meaning_of};
ghost use Rattle.policy_eval.specs.Obligations.{MeetsObligations};
ghost use Rattle.policy_eval.specs.Resolved.{IsResolved};
ghost use Rattle.obligations.specs.Counts.{first_crowded};
ghost use Rattle.obligations.specs.Names.{ob_names};
ghost use Rattle.policy_checker.specs.Certified.{Certifies, IsCertified, KeepAll};

use crate::answer::{CertList, ObAnswer, ObAnswers};
use crate::playing::PlayablePolicy;
use obligations::{ObName, ob_names};
use policy_tree::Policy;
use std::marker::Model;

/// A policy that meets all its obligations, none of which has too many cases.
///
/// It keeps a certificate for every system of every obligation, in their order, which is right for the system. A
/// contract sees the policy alone.
#[derive(Drop)]
pub struct AcceptedPolicy {
    policy: Policy,
    answers: ObAnswers,
}

impl Model for AcceptedPolicy {
    ghost use Rattle.policy_tree.specs.declared.typed.Policy.{Policy};
    ghost use Rattle.policy_tree.specs.contracts.trees.Cond as cond;
    ghost use Rattle.policy_tree.specs.contracts.trees.Expr as expr;
    ghost use Rattle.policy_tree.specs.Meaning.{meaning_of};
    ghost use Rattle.policy_eval.specs.Resolved.{IsResolved};
    ghost use Rattle.std.specs.Coded.{codes};

    ghost Value = { Policy };

    ghost coded = { Prim.hlevel (codes, expr.the_row.coded, cond.the_row.coded) };

    ghost view = { λ a. a.policy };

    ghost use Rattle.std.specs.Prelude.{◌≡◌, None};
    ghost use Rattle.obligations.specs.Counts.{first_crowded};
    ghost use Rattle.obligations.specs.Names.{ob_names};
    ghost use Rattle.policy_checker.specs.Certified.{KeepAll};

    ghost invariant = { λ a. IsResolved (meaning_of a.policy) × KeepAll (meaning_of a.policy) a.answers
        × (first_crowded (meaning_of a.policy) ob_names ≡ None) };
}

impl AcceptedPolicy {
    /// The policy that these answers accept: all of them are that an obligation holds.
    pub(crate) fn new(policy: Policy, answers: ObAnswers) -> AcceptedPolicy
        requires resolved { IsResolved (meaning_of policy) }
        requires kept { KeepAll (meaning_of policy) answers }
        requires few { first_crowded (meaning_of policy) ob_names ≡ None }
        ensures { result ≡ policy }
    {
        AcceptedPolicy { policy, answers }
    }

    /// The policy.
    pub fn policy(&self) -> &Policy
        ensures policy { result.now ≡ self.now }
        ensures resolved { IsResolved (meaning_of self.now) }
        ensures certified { IsCertified (meaning_of self.now) }
        ensures meets { MeetsObligations (meaning_of self.now) }
    {
        &self.policy
    }

    /// The same policy as one that can be played.
    pub fn into_playable(self) -> PlayablePolicy
        ensures { result ≡ self }
    {
        PlayablePolicy::new(self.policy, self.answers)
    }

    /// The names of its obligations, none of which has too many cases.
    pub fn obligations(&self) -> &[ObName]
        ensures names { result.now ≡ ob_names }
        ensures few { first_crowded (meaning_of self.now) ob_names ≡ None }
    {
        // The type's invariant is known where one of its fields is named.
        let _ = &self.policy;
        ob_names()
    }

    /// The certificates of that obligation, one for each of its systems, in their order.
    pub fn certs(&self, ob: ObName) -> &CertList
        ensures { Certifies (meaning_of self.now) ob (map cert_tree result.now) }
    {
        match &self.answers.get(place_of(ob)).answer {
            ObAnswer::Holds(certs) => certs,
            ObAnswer::Fails(_) | ObAnswer::Undecided(_) => unreachable!(),
        }
    }
}

/// The place of the obligation among all of them.
#[tactic(auto, unfolding(obligations::specs::Names::ob_names))]
fn place_of(ob: ObName) -> u32
    ensures { slice_get ob_names result ≡ Some ob }
{
    match ob {
        ObName::B1 => 0,
        ObName::B2 => 1,
        ObName::B3 => 2,
        ObName::B4 => 3,
        ObName::H1Enqueue => 4,
        ObName::H2Enqueue => 5,
        ObName::H1Tick => 6,
        ObName::H2Tick => 7,
        ObName::H1Yield => 8,
        ObName::H2Yield => 9,
        ObName::H1Block => 10,
        ObName::H2Block => 11,
    }
}
