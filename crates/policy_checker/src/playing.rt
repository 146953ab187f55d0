//! Policies that can be played.

ghost use Rattle.std.specs.Prelude.{◌≡◌, ◌↔◌, ℕ, IfErr, IfOk, IsOk, IsTrue};
ghost use Rattle.policy_tree.specs.Meaning.{meaning_of};
ghost use Rattle.policy_eval.specs.Obligations.{MeetsHandlerObligations};
ghost use Rattle.policy_eval.specs.Resolved.{IsResolved};
ghost use Rattle.policy_checker.specs.Playable.{HasCertifiedHandlers, KeepHandlers};
ghost use Rattle.policy_checker.specs.Playable.{all_let_play, is_of_handler, is_playable, lets_play};
ghost use Rattle.policy_checker.specs.Verdicts.{IsVerdict, policy_of};

use crate::answer::{Answered, ObAnswers};
use crate::verdict::Verdict;
use obligations::ObName;
use policy_tree::Policy;
use std::marker::Model;

/// A policy that meets its handler obligations: in each handler exactly one case holds, whatever the thread is. What it
/// owes for balance it may meet or not.
///
/// It keeps a certificate for every system of every handler obligation, which is right for the system. A contract sees
/// the policy alone.
#[derive(Drop)]
pub struct PlayablePolicy {
    policy: Policy,
    answers: ObAnswers,
}

impl Model for PlayablePolicy {
    ghost use Rattle.policy_tree.specs.declared.typed.Policy.{Policy};
    ghost use Rattle.policy_tree.specs.contracts.trees.Cond as cond;
    ghost use Rattle.policy_tree.specs.contracts.trees.Expr as expr;
    ghost use Rattle.policy_tree.specs.Meaning.{meaning_of};
    ghost use Rattle.policy_eval.specs.Resolved.{IsResolved};
    ghost use Rattle.std.specs.Coded.{codes};

    ghost Value = { Policy };

    ghost coded = { Prim.hlevel (codes, expr.the_row.coded, cond.the_row.coded) };

    ghost view = { λ a. a.policy };

    ghost use Rattle.policy_checker.specs.Playable.{KeepHandlers};

    ghost invariant = { λ a. IsResolved (meaning_of a.policy) × KeepHandlers (meaning_of a.policy) a.answers };
}

impl PlayablePolicy {
    /// The policy that these answers let play: each handler obligation is answered to hold.
    pub(crate) fn new(policy: Policy, answers: ObAnswers) -> PlayablePolicy
        requires resolved { IsResolved (meaning_of policy) }
        requires kept { KeepHandlers (meaning_of policy) answers }
        ensures { result ≡ policy }
    {
        PlayablePolicy { policy, answers }
    }

    /// The policy.
    pub fn policy(&self) -> &Policy
        ensures policy { result.now ≡ self.now }
        ensures resolved { IsResolved (meaning_of self.now) }
        ensures certified { HasCertifiedHandlers (meaning_of self.now) }
        ensures handlers { MeetsHandlerObligations (meaning_of self.now) }
    {
        &self.policy
    }
}

/// The policy of the verdict as one that can be played, exactly where each handler obligation is answered to hold. Else
/// the verdict comes back. An accepted policy can always be played.
pub fn playable(verdict: Verdict) -> Result<PlayablePolicy, Verdict>
    requires resolved { IsResolved (meaning_of (policy_of verdict)) }
    requires verdict { (budget : ℕ) × IsVerdict (meaning_of (policy_of verdict)) budget verdict }
    ensures exactly { IsOk result ↔ IsTrue (is_playable verdict) }
    ensures keeps { IfOk result (λ playable. playable ≡ policy_of verdict) }
    ensures returned { IfErr result (λ returned. returned ≡ verdict) }
{
    if !verdict.is_playable() {
        return Err(verdict);
    }
    Ok(match verdict {
        Verdict::Accepted(accepted) => accepted.into_playable(),
        Verdict::Refused(answers, policy) => PlayablePolicy::new(policy, answers),
        Verdict::Undecided(answers, policy) => PlayablePolicy::new(policy, answers),
    })
}

impl Verdict {
    /// Whether each handler obligation is answered to hold.
    pub fn is_playable(&self) -> bool
        ensures { result ≡ is_playable self.now }
    {
        match self {
            Verdict::Accepted(_) => true,
            Verdict::Refused(answers, _) => all_let_play(answers.as_slice()),
            Verdict::Undecided(answers, _) => all_let_play(answers.as_slice()),
        }
    }
}

/// Whether each handler obligation is answered to hold.
fn all_let_play(answers: &[Answered]) -> bool
    ensures { result ≡ all_let_play answers.now }
{
    answers.iter().all(|answered| lets_play(answered))
}

/// Whether the obligation is none of a handler or is answered to hold.
fn lets_play(answered: &Answered) -> bool
    ensures { result ≡ lets_play answered.now }
{
    !is_of_handler(answered.name) || answered.answer.is_holding()
}

/// Whether the obligation is one of a handler.
fn is_of_handler(name: ObName) -> bool
    ensures { result ≡ is_of_handler name }
{
    match name {
        ObName::B1 | ObName::B2 | ObName::B3 | ObName::B4 => false,
        ObName::H1Enqueue | ObName::H2Enqueue | ObName::H1Tick | ObName::H2Tick => true,
        ObName::H1Yield | ObName::H2Yield | ObName::H1Block | ObName::H2Block => true,
    }
}
