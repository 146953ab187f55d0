//! Reads the systems of a file, one certificate at a time.

ghost use Rattle.std.specs.Prelude.{ℕ, ◌+◌, ◌<◌, List, [], ◌∷◌, IfErr, IfOk, length, suc};
ghost use Rattle.linear_cert.specs.Right.{cert_tree};
ghost use Rattle.obligations.specs.declared.names.ObName.{ObName};
ghost use Rattle.sched_base.specs.declared.limits.TheConstants.{MAX_SPLITS};
ghost use Rattle.cert_file.specs.BadLines.{parts};
ghost use Rattle.cert_file.specs.Reading.{FailsFrom, IsNextCertificate, IsNextSystem};

use crate::fronts::front_of;
use crate::lines::{Rest, next_length};
use cert_lines::{CertFault, read_cert};
use linear_cert::Cert;
use std::alloc::Global;

/// The certificate of the system that comes next.
pub(crate) fn next_system(alloc: Global, rest: &mut Rest<'_>) -> Result<Cert, CertFault>
    requires { rest.old.number + length rest.old.bytes.now < u32.MAX }
    ensures system { IfOk result (λ cert. IsNextSystem (cert_tree cert)
        rest.old.number rest.old.bytes.now rest.new.number rest.new.bytes.now) }
    ensures fault { (systems : ℕ) (names : List ObName) →
        IfErr result (FailsFrom (parts [] 0 (suc systems) names) rest.old.number rest.old.bytes.now) }
{
    let lines = next_length(rest)?;
    next_certificate(alloc, rest, lines)
}

/// The certificate that comes next, where so many lines were announced.
fn next_certificate(alloc: Global, rest: &mut Rest<'_>, lines: u64) -> Result<Cert, CertFault>
    requires short { rest.old.number + length rest.old.bytes.now < u32.MAX }
    ensures cert { IfOk result (λ cert. IsNextCertificate lines (cert_tree cert)
        rest.old.number rest.old.bytes.now rest.new.number rest.new.bytes.now) }
    ensures fault { (systems : ℕ) (names : List ObName) →
        IfErr result (FailsFrom (parts (MAX_SPLITS ∷ []) lines systems names) rest.old.number rest.old.bytes.now) }
{
    let front = front_of(rest.bytes, lines);
    match read_cert(alloc, front.bytes) {
        Ok(cert) => {
            rest.bytes = front.behind;
            rest.number += (lines - front.missing) as u32;
            if front.missing == 0 {
                Ok(cert)
            } else {
                Err(CertFault::BadText(rest.number))
            }
        }
        Err(CertFault::BadText(line)) => Err(CertFault::BadText(rest.number + (line - 1))),
        Err(CertFault::Memory) => Err(CertFault::Memory),
    }
}
