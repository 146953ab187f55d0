//! The answer of `verify`.

ghost use Rattle.std.specs.Prelude.{◌≡◌, ◌≤◌, ◌++◌, ◌∷◌, [], IfOk, codes, decimal, length};
ghost use Rattle.sched_base.specs.declared.limits.TheConstants.{MAX_CERTIFICATE_BYTES, MAX_POLICY_BYTES};
ghost use Rattle.sched_io.specs.Puts.{Puts};
ghost use Rattle.obligations.specs.Names.{ob_text};
ghost use Rattle.policy_answers.specs.Verifying.{IsVerifyOf, verified_line, verify_line};

use crate::lines::put_refusal;
use crate::reading::{CheckMemory, Reading, Refusal, read};
use cert_file::{Verified, VerifyFault, verify};
use obligations::ObName;
use sched_io::{Line, PutFault, Sink, put_all};
use std::alloc::Global;

/// What `verify` answers to texts that aren't too long.
#[derive(Clone, Copy)]
pub enum VerifyAnswer {
    /// The certificates prove the policy.
    Verified(Verified),
    /// The number, from 1, of the first bad line of the certificates' text.
    BadLine(u32),
    /// The first obligation whose certificates are wrong, and the first of its systems, from 0, where they are.
    Wrong(ObName, u32),
    /// The policy's text isn't judged.
    Unjudged(Refusal),
}

/// The answer to the texts of a policy and of certificates, each within its limit. The policy isn't decided.
pub fn verify_text(alloc: Global, policy: &[u8], certs: &[u8]) -> Result<VerifyAnswer, CheckMemory>
    requires policy { length policy.now ≤ MAX_POLICY_BYTES }
    requires certs { length certs.now ≤ MAX_CERTIFICATE_BYTES }
    ensures { IfOk result (IsVerifyOf policy.now certs.now) }
{
    let policy = match read(alloc, policy)? {
        Reading::Policy(policy) => policy,
        Reading::Faulty(fault) => return Ok(VerifyAnswer::Unjudged(Refusal::Faulty(fault))),
    };
    match verify(alloc, &policy, certs) {
        Ok(verified) => Ok(VerifyAnswer::Verified(verified)),
        Err(VerifyFault::Cases(name, _count)) => Ok(VerifyAnswer::Unjudged(Refusal::Crowded(name))),
        Err(VerifyFault::BadLine(line)) => Ok(VerifyAnswer::BadLine(line)),
        Err(VerifyFault::Wrong(name, system)) => Ok(VerifyAnswer::Wrong(name, system)),
        Err(VerifyFault::Memory) => Err(CheckMemory::Memory),
    }
}

impl VerifyAnswer {
    /// Writes the answer, which is one line.
    pub fn put<S: Sink>(&self, out: &mut S) -> Result<(), PutFault>
        ensures { Puts (verify_line self.now ∷ []) result (S.shown out.old) (S.shown out.new) }
    {
        match self {
            VerifyAnswer::Verified(verified) => put_all(
                out,
                verified_line(verified.systems).as_bytes(),
            ),
            VerifyAnswer::BadLine(line) => put_all(out, bad_line(*line).as_bytes()),
            VerifyAnswer::Wrong(name, system) => put_all(
                out,
                wrong_line(*name, *system).as_bytes(),
            ),
            VerifyAnswer::Unjudged(refusal) => put_refusal(out, refusal),
        }
    }
}

/// The line of a policy that is proved, which has so many systems.
fn verified_line(systems: u32) -> Line
    ensures { result ≡ verified_line systems }
{
    let mut line = Line::new();
    line.add(b"verified ");
    line.add_number(u64::from(systems));
    line.add(b"\n");
    line
}

/// The line of certificates whose text has that first bad line.
fn bad_line(number: u32) -> Line
    ensures { result ≡ codes "certs " ++ (decimal number ++ codes " bad-line\n") }
{
    let mut line = Line::new();
    line.add(b"certs ");
    line.add_number(u64::from(number));
    line.add(b" bad-line\n");
    line
}

/// The line of certificates that are wrong there.
fn wrong_line(name: ObName, system: u32) -> Line
    ensures { result ≡ codes "wrong " ++ (ob_text name ++ (codes " " ++ (decimal system ++ codes "\n"))) }
{
    let mut line = Line::new();
    line.add(b"wrong ");
    line.add(name.text().as_bytes());
    line.add(b" ");
    line.add_number(u64::from(system));
    line.add(b"\n");
    line
}
