//! Whether a file proves a policy.

ghost use Rattle.std.specs.Prelude.{◌≡◌, ◌<◌, ◌^◌, IfErr, IfOk, length};
ghost use Rattle.policy_tree.specs.Meaning.{Meaning, meaning_of};
ghost use Rattle.policy_eval.specs.Obligations.{MeetsObligations};
ghost use Rattle.policy_eval.specs.Resolved.{IsResolved};
ghost use Rattle.obligations.specs.Systems.{obligations_of};
ghost use Rattle.cert_file.specs.Answers.{IsCauseOf, IsVerified, MustAnswer};
ghost use Rattle.cert_file.specs.BadLines.{all};
ghost use Rattle.cert_file.specs.Reading.{FailsFrom, IsTallyOfFile, verdict_of};

use crate::answer::{Verified, VerifyFault};
use crate::lines::{Rest, behind};
use crate::systems::{Tally, next_obligations};
use cert_lines::CertFault;
use obligations::{Obligation, ObligeFault, oblige};
use policy_tree::Policy;
use std::alloc::Global;

/// Whether the file proves the policy: it has a right certificate for each system of each obligation.
///
/// No solver is called, and the whole text is read before a certificate counts as wrong. One certificate is held at a
/// time, and no room is taken by what a number of the text says. Time is linear in the text and in the rows of the
/// policy's systems.
pub fn verify(alloc: Global, policy: &Policy, text: &[u8]) -> Result<Verified, VerifyFault>
    requires resolved { IsResolved (meaning_of policy.now) }
    requires short { length text.now < 2 ^ 32 }
    ensures verified { IfOk result (IsVerified (meaning_of policy.now) text.now) }
    ensures meets { IfOk result (λ _. MeetsObligations (meaning_of policy.now)) }
    ensures cause { IfErr result (IsCauseOf (meaning_of policy.now) text.now) }

    // Each answer is given wherever it is the one.
    ensures must { MustAnswer (meaning_of policy.now) text.now result }
{
    answer_of(alloc, policy, text)
}

/// The same answer.
fn answer_of(alloc: Global, policy: &Policy, text: &[u8]) -> Result<Verified, VerifyFault>
    requires resolved { IsResolved (meaning_of policy.now) }
    requires short { length text.now < 2 ^ 32 }
    ensures verified { IfOk result (IsVerified (meaning_of policy.now) text.now) }
    ensures cause { IfErr result (IsCauseOf (meaning_of policy.now) text.now) }
{
    match oblige(alloc, policy) {
        Ok(obligations) => {
            match tally_of(alloc, obligations.as_slice(), text) {
                Ok(tally) => verdict_of(tally),
                Err(CertFault::BadText(line)) => Err(VerifyFault::BadLine(line)),
                Err(CertFault::Memory) => Err(VerifyFault::Memory),
            }
        }
        Err(ObligeFault::Cases(name, count)) => Err(VerifyFault::Cases(name, count)),
        Err(ObligeFault::Memory) => Err(VerifyFault::Memory),
    }
}

/// What the whole file has of these obligations.
fn tally_of(alloc: Global, obligations: &[Obligation], text: &[u8]) -> Result<Tally, CertFault>
    requires { length text.now < 2 ^ 32 }
    ensures tally { (p : Meaning) → obligations.now ≡ obligations_of p → IfOk result (IsTallyOfFile p text.now) }
    ensures fault { (p : Meaning) → obligations.now ≡ obligations_of p → IfErr result (FailsFrom all 1 text.now) }
{
    let bytes = match behind(text, b"certificates 1\n".as_slice()) {
        Some(bytes) => bytes,
        None => return Err(CertFault::BadText(1)),
    };
    let mut rest = Rest { bytes, number: 2 };
    next_obligations(alloc, &mut rest, obligations)
}

/// What was found of the whole file.
fn verdict_of(tally: Tally) -> Result<Verified, VerifyFault>
    ensures { result ≡ verdict_of tally }
{
    match tally.wrong {
        Some((name, place)) => Err(VerifyFault::Wrong(name, place)),
        None => Ok(Verified {
            systems: tally.systems,
        }),
    }
}
