//! Writes the file of an accepted policy.

ghost use Rattle.std.specs.Prelude.{◌≡◌, ◌++◌, ◌<◌, ◌^◌, IfOk, OnOk, length, map};
ghost use Rattle.std.specs.List.{AllByRecursion, count_by};
ghost use Rattle.linear_cert.specs.Right.{IsShallow, cert_tree};
ghost use Rattle.policy_tree.specs.Meaning.{meaning_of};
ghost use Rattle.text_forms.specs.Cuts.{is_byte};
ghost use Rattle.cert_file.specs.Answers.{IsWritten};
ghost use Rattle.cert_file.specs.Reading.{AreWritten};
ghost use Rattle.cert_file.specs.Text.{AreWritable, IsWritable, obligation_text, system_text, systems_text};

use crate::answer::CertFileMemory;
use cert_lines::{CertText, put_number, write_cert};
use linear_cert::Cert;
use obligations::ObName;
use policy_checker::AcceptedPolicy;
use std::alloc::{AllocError, Global};

/// The file of the certificates that the policy keeps.
///
/// It isn't promised to be short: a certificate has as many lines as it has leaves and splits.
pub fn write_certs(alloc: Global, policy: &AcceptedPolicy) -> Result<Vec<u8>, CertFileMemory>
    ensures { IfOk result (λ text. IsWritten (meaning_of policy.now) text.items) }
{
    let mut text = Vec::new(alloc);
    text.extend_from_slice(b"certificates 1\n")?;
    put_obligations(alloc, &mut text, policy, policy.obligations())?;
    Ok(text)
}

/// Puts these obligations behind the text. It calls itself for those behind the first.
fn put_obligations(
    alloc: Global,
    text: &mut Vec<u8>,
    policy: &AcceptedPolicy,
    names: &[ObName],
) -> Result<(), AllocError>
    ensures { OnOk result (AreWritten (meaning_of policy.now) names.now text.old.items text.new.items) }
{
    let (name, more) = match names.split_first() {
        Some(parts) => parts,
        None => return Ok(()),
    };
    put_obligation(alloc, text, *name, policy.certs(*name).as_slice())?;
    put_obligations(alloc, text, policy, more)
}

/// Puts an obligation with these certificates behind the text.
fn put_obligation(
    alloc: Global,
    text: &mut Vec<u8>,
    name: ObName,
    certs: &[Cert],
) -> Result<(), AllocError>
    requires few { length certs.now < 2 ^ 32 }
    requires shallow { AllByRecursion IsShallow (map cert_tree certs.now) }
    ensures text { OnOk result (text.new.items ≡ text.old.items ++ obligation_text name (map cert_tree certs.now)) }
    ensures writable { OnOk result (AreWritable (map cert_tree certs.now)) }
{
    text.extend_from_slice(b"obligation ")?;
    text.extend_from_slice(name.text().as_bytes())?;
    text.push(b' ')?;
    put_number(text, certs.len() as u32)?;
    text.push(b'\n')?;
    put_systems(alloc, text, certs)
}

/// Puts a system for each certificate behind the text.
fn put_systems(alloc: Global, text: &mut Vec<u8>, certs: &[Cert]) -> Result<(), AllocError>
    requires { AllByRecursion IsShallow (map cert_tree certs.now) }
    ensures text { OnOk result (text.new.items ≡ text.old.items ++ systems_text (map cert_tree certs.now)) }
    ensures writable { OnOk result (AllByRecursion IsWritable (map cert_tree certs.now)) }
{
    for cert in certs {
        put_system(alloc, text, cert)?;
    }
    Ok(())
}

/// Puts a system with this certificate behind the text. The certificate's own text is made first, and its lines are
/// counted.
fn put_system(alloc: Global, text: &mut Vec<u8>, cert: &Cert) -> Result<(), AllocError>
    requires { IsShallow (cert_tree cert.now) }
    ensures text { OnOk result (text.new.items ≡ text.old.items ++ system_text (cert_tree cert.now)) }
    ensures writable { OnOk result (IsWritable (cert_tree cert.now)) }
{
    let own = match write_cert(alloc, cert) {
        Ok(own) => own,
        Err(CertText::Memory) => return Err(AllocError),
    };
    text.extend_from_slice(b"system ")?;
    put_number(text, lines_in(own.as_slice()))?;
    text.push(b'\n')?;
    text.extend_from_slice(own.as_slice())?;
    Ok(())
}

/// How many line feeds the text has.
fn lines_in(text: &[u8]) -> u64
    ensures { result ≡ count_by (is_byte 10) text.now }
{
    text.iter().filter(|byte| **byte == b'\n').count() as u64
}
