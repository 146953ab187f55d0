//! Answers to obligations.

ghost use Rattle.std.specs.Prelude.{◌≡◌, ◌∷◌, ◌++◌, [], ℕ, List, IfOk};
ghost use Rattle.linear_form.specs.System.{LinearSystem};
ghost use Rattle.policy_checker.specs.Answers.{HasRoom, IsAnswer, IsFound};
ghost use Rattle.policy_checker.specs.Outcomes.{outcome_of};
ghost use Rattle.policy_checker.specs.Playable.{is_holding};
ghost use Rattle.policy_checker.specs.Verdicts.{is_failure, is_left};
ghost use Rattle.policy_checker.specs.declared.answer.ObAnswer.TheVariants.{Holds};

use linear_cert::Cert;
use linear_form::Point;
use linear_solver::Answer;
use lists::Items;
use obligations::ObName;
use std::alloc::AllocError;

/// Certificates in the order of an obligation's systems, one for each.
pub type CertList = Items<Cert>;

/// What was found out about an obligation.
#[derive(Drop)]
pub enum ObAnswer {
    /// It holds: each of its systems has a certificate that is right.
    Holds(CertList),
    /// It fails: the point solves one of its systems, the first for which a point was found.
    Fails(Point),
    /// Neither is known. Of the first system that was left undecided, how many points its ranges have, none where that
    /// passes `2^128 - 1`.
    Undecided(Option<u128>),
}

/// An obligation by its name, and what was found out about it.
#[derive(Drop)]
pub struct Answered {
    pub name: ObName,
    pub answer: ObAnswer,
    /// How many boxes were looked at for it.
    pub looks: u64,
}

/// Answers to the obligations of a policy, in the order in which they are reported.
pub type ObAnswers = Items<Answered>;

/// An answer without its reason.
#[derive(Clone, Copy)]
pub enum Outcome {
    /// The obligation holds.
    Holds,
    /// The obligation fails.
    Fails,
    /// Neither is known.
    Undecided,
}

impl ObAnswer {
    /// The answer without its reason.
    pub fn outcome(&self) -> Outcome
        ensures { result ≡ outcome_of self.now }
    {
        match self {
            ObAnswer::Holds(_) => Outcome::Holds,
            ObAnswer::Fails(_) => Outcome::Fails,
            ObAnswer::Undecided(_) => Outcome::Undecided,
        }
    }

    /// Whether the obligation fails.
    pub(crate) fn is_failure(&self) -> bool
        ensures { result ≡ is_failure self.now }
    {
        matches!(self, ObAnswer::Fails(_))
    }

    /// Whether the obligation holds.
    pub(crate) fn is_holding(&self) -> bool
        ensures { result ≡ is_holding self.now }
    {
        matches!(self, ObAnswer::Holds(_))
    }

    /// Whether it isn't known whether the obligation holds.
    pub(crate) fn is_left(&self) -> bool
        ensures { result ≡ is_left self.now }
    {
        matches!(self, ObAnswer::Undecided(_))
    }

    /// The answer to the systems so far and one more, of which that was found.
    pub(crate) fn with(self, found: Answer) -> Result<ObAnswer, AllocError>
        requires { HasRoom self }
        ensures { (budget : ℕ) (systems : List LinearSystem) (system : LinearSystem) → IsAnswer budget systems self →
            IsFound budget system found → IfOk result (IsAnswer budget (systems ++ system ∷ [])) }
    {
        match self {
            ObAnswer::Holds(certs) => with_certificates(certs, found),
            ObAnswer::Fails(point) => Ok(ObAnswer::Fails(point)),
            ObAnswer::Undecided(points) => match found {
                Answer::Fails(point) => Ok(ObAnswer::Fails(point)),
                Answer::Holds(_) | Answer::Undecided(_) => Ok(ObAnswer::Undecided(points)),
            },
        }
    }
}

/// The answer to systems that have these certificates and one more, of which that was found.
fn with_certificates(mut certs: CertList, found: Answer) -> Result<ObAnswer, AllocError>
    requires { HasRoom (Holds certs) }
    ensures { (budget : ℕ) (systems : List LinearSystem) (system : LinearSystem) →
        IsAnswer budget systems (Holds certs) → IsFound budget system found →
        IfOk result (IsAnswer budget (systems ++ system ∷ [])) }
{
    match found {
        Answer::Holds(cert) => {
            certs.push(cert)?;
            Ok(ObAnswer::Holds(certs))
        }
        Answer::Fails(point) => Ok(ObAnswer::Fails(point)),
        Answer::Undecided(points) => Ok(ObAnswer::Undecided(points)),
    }
}
