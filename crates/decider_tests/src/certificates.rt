//! Whether a certificate is right for a system, which `CERTIFICATE; SYSTEM` spells, and what texts of certificates are
//! read as.

use crate::spelling::parts;
use crate::systems::system_of;
use cert_lines::{CertFault, CertText, read_cert, write_cert};
use linear_cert::check;
use linear_form::System;
use std::alloc::{AllocError, Global};

/// The longest text of the tables.
const LONG: usize = 1 << 20;

/// Whether the certificate of this text is right for the system.
pub(crate) fn check_answer(alloc: Global, text: &str) -> Result<String, AllocError> {
    let (cert, system) = match parts(text) {
        Ok(parts) => parts,
        Err(fault) => return fault.answer(alloc),
    };
    match system_of(alloc, system) {
        Ok(system) => String::from_str(alloc, checked(alloc, &system, cert.as_bytes())),
        Err(fault) => fault.answer(alloc),
    }
}

/// What the checker says of the certificate.
fn checked(alloc: Global, system: &System, text: &[u8]) -> &'static str {
    if text.len() > LONG {
        return "too long";
    }
    match read_cert(alloc, text) {
        Ok(cert) => if check(system, &cert) {
            "right"
        } else {
            "wrong"
        },
        Err(_fault) => "no certificate",
    }
}

/// Whether a certificate is read of the text, and written as the same text. Else the text's bad line.
pub(crate) fn text_answer(alloc: Global, text: &str) -> Result<String, AllocError> {
    let text = text.as_bytes();
    if text.len() > LONG {
        return String::from_str(alloc, "too long");
    }
    match read_cert(alloc, text) {
        Ok(cert) => written_answer(alloc, write_cert(alloc, &cert), text),
        Err(CertFault::BadText(line)) => format!(in alloc; "bad-line {line}"),
        Err(CertFault::Memory) => Err(AllocError),
    }
}

/// Whether this text was written again.
fn written_answer(
    alloc: Global,
    written: Result<Vec<u8>, CertText>,
    text: &[u8],
) -> Result<String, AllocError> {
    match written {
        Ok(again) if again.as_slice() == text => String::from_str(alloc, "read"),
        Ok(_other) => String::from_str(alloc, "another text"),
        Err(CertText::Memory) => Err(AllocError),
    }
}
