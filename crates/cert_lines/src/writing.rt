//! Writes certificates.

ghost use Rattle.std.specs.Prelude.{◌≡◌, [], ◌∷◌, ◌++◌, All, IfOk, OnOk};
ghost use Rattle.linear_cert.specs.Right.{IsShallow, cert_tree};
ghost use Rattle.cert_lines.specs.Text.{AreInRange, IsMult, IsSplit, SpellsCertificate, cert_text, leaf_line, mult_text};
ghost use Rattle.cert_lines.specs.Text.{split_line};

use crate::fault::CertText;
use itoa::{Buffer, Integer};
use linear_cert::{Cert, Mult};
use std::alloc::{AllocError, Global};

/// The text of the certificate. It calls itself for the parts of a split.
pub fn write_cert(alloc: Global, cert: &Cert) -> Result<Vec<u8>, CertText>
    requires { IsShallow (cert_tree cert.now) }
    ensures { IfOk result (λ text. SpellsCertificate text.items (cert_tree cert.now)) }
{
    let mut text = Vec::new(alloc);
    put_cert(&mut text, cert)?;
    Ok(text)
}

fn put_cert(text: &mut Vec<u8>, cert: &Cert) -> Result<(), AllocError>
    ensures text { OnOk result (text.new.items ≡ text.old.items ++ cert_text (cert_tree cert.now)) }
    ensures in_range { OnOk result (AreInRange (cert_tree cert.now)) }
{
    match cert {
        Cert::Leaf(mults) => put_leaf(text, mults.as_slice()),
        Cert::Split {
            var,
            at,
            left,
            right,
        } => {
            put_split(text, *var, *at)?;
            put_cert(text, left)?;
            put_cert(text, right)
        }
    }
}

fn put_leaf(text: &mut Vec<u8>, mults: &[Mult]) -> Result<(), AllocError>
    ensures text { let line = leaf_line mults.now ++ 10 ∷ [] in
        OnOk result (text.new.items ≡ text.old.items ++ line) }
    ensures in_range { OnOk result (All IsMult mults.now) }
{
    text.extend_from_slice(b"leaf")?;
    for mult in mults {
        put_mult(text, *mult)?;
    }
    text.push(b'\n')?;
    Ok(())
}

fn put_mult(text: &mut Vec<u8>, mult: Mult) -> Result<(), AllocError>
    ensures text { OnOk result (text.new.items ≡ text.old.items ++ mult_text mult) }
    ensures in_range { OnOk result (IsMult mult) }
{
    text.push(b' ')?;
    put_number(text, mult.row)?;
    text.push(b':')?;
    put_number(text, mult.by)
}

fn put_split(text: &mut Vec<u8>, variable: u32, at: i64) -> Result<(), AllocError>
    ensures text { let line = split_line variable at ++ 10 ∷ [] in
        OnOk result (text.new.items ≡ text.old.items ++ line) }
    ensures in_range { OnOk result (IsSplit variable at) }
{
    text.extend_from_slice(b"split ")?;
    put_number(text, variable)?;
    text.push(b' ')?;
    put_number(text, at)?;
    text.push(b'\n')?;
    Ok(())
}

/// Puts the number behind the text, in decimal.
pub fn put_number<I: Integer>(text: &mut Vec<u8>, number: I) -> Result<(), AllocError>
    ensures { OnOk result (text.new.items ≡ text.old.items ++ I.text number) }
{
    let mut buffer = Buffer::new();
    text.extend_from_slice(buffer.format(number).as_bytes())
}
